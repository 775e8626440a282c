//! Journals in the tables of schema 1, which nobody collects into any more: they are read where one goes over to others.

use super::pieces::bytes_of;
use super::same::{same_answers, same_bytes};
use super::stored::check_stored;
use jc_base::faulty::FailSink;
use jc_base::{ByteSink, ByteStream, Code, Limits, SliceStream, VecSink};
use jc_collect::{Delivery, collect_one};
use jc_file::{ByteSpace, SliceSpace};
use jc_keeper::{Keeper, OutStop, Shape};
use jc_schema_one::SqlKeeper1;
use jc_store::{Listed, TableKeeper};
use jc_test_samples::{ENTRY, Slow};
use jc_upload::Answer;
use sqlite::{Alter, Connection, MemStore};
use std::alloc::Global;
use std::process::Abort;
use std::test::Fail;

/// Uploads into an empty journal, the lines of their answers, and the entries that are stored then.
struct Row {
    uploads: &'static [&'static str],
    answers: &'static [&'static str],
    stored: &'static str,
}

const ROWS: [Row; 11] = [
    // one run
    Row {
        uploads: &[
            r#"head:1:0 METADATA "MESSAGE=hi\n""#,
            "head:1:0 ENTRY",
            "head:1:0 CHANGED_ENTRY",
            "head:1:0 ENTRY_2 ENTRY_3 CHANGED_ENTRY",
            "head:1:0 ENTRY_2 ENTRY_3",
            "head:1:0 ENTRY_3 ENTRY ENTRY_3",
        ],
        answers: &[
            "ack S 0 0 0 120",
            "ack S 0 1 1 0",
            "no S 0 60 0",
            "no S 0 60 2",
            "ack S 0 2 2 0",
            "ack S 0 3 0 0",
        ],
        stored: "ENTRY ENTRY_2 ENTRY_3",
    },
    // uploads that leave an empty journal empty
    Row {
        uploads: &[
            "head:1:0",
            "head:1:0 ENTRY CHANGED_ENTRY",
            r#"head:1:0 ENTRY_2 "=x""#,
            "head:2:0 JOURNAL_FILE cut:447",
        ],
        answers: &[
            "ack S 0 0 0 0",
            "no S 0 60 1",
            "no S 0 10 121",
            "no S 0 38 96",
        ],
        stored: "",
    },
    // one entry
    Row {
        uploads: &[r#"head:1:0 METADATA_2 BINARY_FRONT ENTRY "\n\n""#],
        answers: &["ack S 0 1 1 0"],
        stored: r#"METADATA_2 BINARY_FRONT ENTRY "\n\n""#,
    },
    Row {
        uploads: &[r#"head:1:0 METADATA "\n""#],
        answers: &["ack S 0 1 1 0"],
        stored: r#"METADATA "\n""#,
    },
    // entries of 1, 3, 4, 5 and 9 fields
    Row {
        uploads: &[r#"head:1:0 METADATA "A=1\n\n""#],
        answers: &["ack S 0 1 1 0"],
        stored: r#"METADATA "A=1\n\n""#,
    },
    Row {
        uploads: &[r#"head:1:0 METADATA "A=1\nB=2\nC=3\n\n""#],
        answers: &["ack S 0 1 1 0"],
        stored: r#"METADATA "A=1\nB=2\nC=3\n\n""#,
    },
    Row {
        uploads: &[r#"head:1:0 METADATA "A=1\nB=2\nC=3\nD=4\nE=5\nF=6\nG=7\nH=8\nI=9\n\n""#],
        answers: &["ack S 0 1 1 0"],
        stored: r#"METADATA "A=1\nB=2\nC=3\nD=4\nE=5\nF=6\nG=7\nH=8\nI=9\n\n""#,
    },
    // repeats and conflicts of entries that differ in their number of fields, and of entries of two ids in turn
    Row {
        uploads: &[
            r#"head:1:0 METADATA "A=1\nB=2\n\n" METADATA_2 "A=1\n\n""#,
            r#"head:1:0 METADATA "A=1\n\n""#,
            r#"head:1:0 METADATA "A=1\nB=2\nC=3\n\n""#,
            r#"head:1:0 METADATA "A=1\nB=2\n\n" METADATA_2 "A=1\nB=2\n\n""#,
            r#"head:1:0 METADATA "A=1\nB=2\n\n" METADATA_2 "A=1\n\n""#,
        ],
        answers: &[
            "ack S 0 2 2 0",
            "no S 0 60 0",
            "no S 0 60 0",
            "no S 0 60 1",
            "ack S 0 2 0 0",
        ],
        stored: r#"METADATA "A=1\nB=2\n\n" METADATA_2 "A=1\n\n""#,
    },
    Row {
        uploads: &[
            "head:1:0 ENTRY LAST_ENTRY ENTRY_2",
            "head:1:0 ENTRY LAST_ENTRY ENTRY_2",
            "head:1:0 LAST_ENTRY ENTRY_2 ENTRY ENTRY_3",
        ],
        answers: &["ack S 0 3 3 0", "ack S 0 3 0 0", "ack S 0 4 1 0"],
        stored: "ENTRY ENTRY_2 ENTRY_3",
    },
    // a journal file, and the same entry in export streams
    Row {
        uploads: &[
            "head:2:0 JOURNAL_FILE",
            r#"head:1:0 "__CURSOR=x\n" BOOT_FIELD "__X=1\nMESSAGE=hi\n" METADATA "\n""#,
            r#"head:1:0 "__CURSOR=x\nMESSAGE=hi\n__X=1\n" BOOT_FIELD METADATA "\n""#,
            "head:1:0 ENTRY",
        ],
        answers: &[
            "ack S 0 1 1 0",
            "ack S 0 1 0 0",
            "ack S 0 1 0 0",
            "no S 0 60 0",
        ],
        stored: r#"METADATA "MESSAGE=hi\n" BOOT_FIELD "\n""#,
    },
    // with a longer header
    Row {
        uploads: &["head:2:0 LONG_HEADER_FILE"],
        answers: &["ack S 0 1 1 0"],
        stored: r#"METADATA "MESSAGE=hi\n" BOOT_FIELD "\n""#,
    },
];

fn empty(alloc: Global) -> Result<SqlKeeper1<MemStore>, Fail> {
    let conn = Connection::open_in_memory(alloc)?;
    match SqlKeeper1::create(alloc, conn) {
        Ok(keeper) => Ok(keeper),
        Err(_) => Err(Fail::new("not created")),
    }
}

/// What a delivery is answered with. What calls this has nothing of `collect_one`'s contract to prove with, so it is
/// proved in less time.
fn collect_delivery<K: Keeper, R: ByteStream, B: ByteSpace>(
    alloc: Global,
    keeper: &mut K,
    delivery: &mut Delivery<R, B>,
) -> Answer {
    collect_one(alloc, keeper, delivery, &Limits::default())
}

fn collected<K: Keeper>(alloc: Global, keeper: &mut K, pieces: &str) -> Result<Answer, Fail> {
    let upload = bytes_of(alloc, pieces)?;
    let mut delivery: Delivery<_, SliceSpace<'_>> = Delivery::Stream(SliceStream::new(&upload));
    Ok(collect_delivery(alloc, keeper, &mut delivery))
}

fn check_row<K: Keeper + Drop>(
    rt: &(impl Abort + AllocGlobal),
    mut keeper: K,
    row: &Row,
) -> Result<(), Fail> {
    let mut answers = Vec::new(rt.alloc());
    for pieces in row.uploads {
        answers.push(collected(rt.alloc(), &mut keeper, pieces)?)?;
    }
    same_answers(rt, "answers", &answers, row.answers)?;
    check_stored(rt, &mut keeper, row.stored)
}

#[test]
fn old_tables_keep_journals(rt: HostRuntime) -> Result<(), Fail> {
    for row in &ROWS {
        check_row(&rt, empty(rt.alloc())?, row)?;
    }
    Ok(())
}

/// What a keeper exports. What calls this has nothing of `export`'s contract to prove with.
fn exported<S: Alter, L: Listed, W: ByteSink>(
    keeper: &mut TableKeeper<S, L>,
    sink: &mut W,
) -> Result<u64, OutStop> {
    keeper.export(sink)
}

/// What it shows of the entries with these numbers.
fn shown<S: Alter, L: Listed, W: ByteSink>(
    keeper: &mut TableKeeper<S, L>,
    sink: &mut W,
    first: u64,
    last: u64,
) -> Result<(), OutStop> {
    keeper.show(sink, Shape::Line, None, first, last)
}

/// A keeper exports these entries in the order of their keys, and counts them.
fn check_export<S: Alter, L: Listed>(
    rt: &(impl Abort + AllocGlobal),
    keeper: &mut TableKeeper<S, L>,
) -> Result<(), Fail> {
    let mut sink = VecSink::new(rt.alloc());
    assert!(rt; matches!(exported(keeper, &mut sink), Ok(3)));
    let texts = bytes_of(rt.alloc(), "ENTRY ENTRY_2 LAST_ENTRY")?;
    same_bytes(rt, "an export", sink.bytes(), &texts);
    assert!(rt; matches!(keeper.count(), Ok(3)));
    Ok(())
}

/// It shows the one entry with the number 2.
fn check_line<S: Alter, L: Listed>(
    rt: &(impl Abort + AllocGlobal),
    keeper: &mut TableKeeper<S, L>,
) {
    let mut sink = VecSink::new(rt.alloc());
    assert!(rt; shown(keeper, &mut sink, 2, 2).is_ok());
    same_bytes(
        rt,
        "a line",
        sink.bytes(),
        b"000102030405060708090a0b0c0d0e0f 2 1000000 5 hi\n",
    );
}

/// A sink that takes one byte at each write and fails once has a front of the text; then it goes on.
fn check_a_failure<S: Alter, L: Listed>(
    rt: &(impl Abort + AllocGlobal),
    keeper: &mut TableKeeper<S, L>,
) {
    let inner = Slow {
        inner: VecSink::new(rt.alloc()),
    };
    let mut sink = FailSink::new(inner, 5);
    let stop = exported(keeper, &mut sink);
    assert!(rt;
        matches!(
            stop,
            Err(OutStop {
                code: Code::WriteFailed,
                written: 5
            })
        )
    );
    same_bytes(rt, "a front", sink.inner.inner.bytes(), &ENTRY[..5]);
    assert!(rt; shown(keeper, &mut sink, 0, u64::MAX).is_ok());
}

/// What tables list that got three entries in another order than that of their keys.
#[test]
fn old_tables_list(rt: HostRuntime) -> Result<(), Fail> {
    let mut keeper = empty(rt.alloc())?;
    collected(rt.alloc(), &mut keeper, "head:1:0 LAST_ENTRY ENTRY_2 ENTRY")?;
    check_export(&rt, &mut keeper)?;
    check_line(&rt, &mut keeper);
    check_a_failure(&rt, &mut keeper);
    Ok(())
}
