//! Sources over a device that fails once.

use super::same::same;
use jc_base::{Ending, Limits, Stop};
use jc_file::faulty::FailSpace;
use jc_file::{FileEntries, SliceSpace};
use jc_sender::{all_entries, count_entries};
use jc_test_samples::JOURNAL_FILE;
use std::test::Fail;

#[test]
fn a_read_that_fails_is_reported_wherever_it_comes(rt: HostRuntime) -> Result<(), Fail> {
    let alloc = rt.alloc();
    let bytes = JOURNAL_FILE;
    let limits = Limits::default();
    let mut last_failure = 0;
    for passes in 0..100 {
        let space = FailSpace::new(SliceSpace { bytes: &bytes }, passes);
        let counted = count_entries(&mut FileEntries::new(alloc, space, limits));
        let space = FailSpace::new(SliceSpace { bytes: &bytes }, passes);
        let given = all_entries(alloc, &mut FileEntries::new(alloc, space, limits));
        match given {
            Ok((entries, ending)) => {
                same(&rt, "the end", &ending, &Ending::End { left: 0 });
                same(
                    &rt,
                    "counted",
                    &counted,
                    &Ok((entries.len() as u64, ending)),
                );
                assert!(rt; entries.len() == 1);
            }
            Err(stop) => {
                same(&rt, "counted", &counted, &Err(stop));
                assert!(rt; matches!(stop, Stop::ReadFailed));
                last_failure = passes;
            }
        }
    }
    // the header, the array, its item, the ENTRY and its item, and the DATA object at least
    assert!(rt; last_failure >= 5);
    assert!(rt; last_failure < 99);
    Ok(())
}
