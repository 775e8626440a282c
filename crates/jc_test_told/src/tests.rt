//! Uploads that a list names, and a resume point that is kept, over files that tell what they have.

mod notes;
mod runs;

use crate::{Memory, Note, Samples};
use jc_collector_answers::{NameLines, answer_names};
use jc_command_args::{InputKind, Source};
use jc_command_shared::{Status, Text};
use jc_keeper::MapKeeper;
use jc_sender::{ack, upload};
use jc_test_samples::answer_lines;
use std::test::Fail;

/// Each line of the list has the answer to the upload in the file that it names: three uploads, one of which comes twice, one
/// that is cut off, one that is missing, and one that is refused.
#[test]
fn named_uploads_are_answered(rt: HostRuntime) -> Result<(), Fail> {
    let alloc = rt.alloc();
    let files = Memory::<Samples>::new(alloc);
    let mut keeper = MapKeeper::new(alloc);
    let mut names = b"a\nb\na\nc\nnone\nd".as_slice();
    let mut output = Text {
        inner: Vec::new(alloc),
    };
    let mut errors = Text {
        inner: Vec::new(alloc),
    };
    let answered = answer_names(
        &files,
        &mut keeper,
        &mut names,
        NameLines::Uploads,
        &mut output,
        &mut errors,
    );
    assert!(rt; matches!(answered, Ok(Status::Failed)));
    let answers = [
        "ack S 0 1 1 0",
        "ack S 1 1 1 0",
        "ack S 0 1 0 0",
        "ack S 2 0 0 53",
        "no - - 61 0",
        "no S 0 60 0",
    ];
    let lines = answer_lines(alloc, &answers)?;
    assert_eq!(rt; output.inner.as_slice(), lines.as_bytes());
    assert_eq!(rt; errors.inner.as_slice(), b"cannot open none\n".as_slice());
    Ok(())
}

/// The text of the point that `ack` prints is all that the file has which takes the resume file's place.
#[test]
fn the_point_that_is_printed_is_kept(rt: HostRuntime) -> Result<(), Fail> {
    let alloc = rt.alloc();
    let mut files = Memory::<Samples>::new(alloc);
    let source = Source {
        kind: InputKind::Export,
        id: "a0a1a2a3a4a5a6a7a8a9aaabacadaeaf",
        resume: "resume",
        file: "export",
    };
    let answers = answer_lines(alloc, &["ack S 0 1 1 0"])?;
    let mut input = answers.as_bytes();
    let mut output = Vec::new(alloc);
    let acknowledged = ack(&mut files, source, &mut input, &mut output);
    assert!(rt; acknowledged.is_ok());
    assert_eq!(rt; output.as_slice(), b"resume 1\n".as_slice());
    match files.notes() {
        [Note::Changed(made), Note::Put { from, path, held }] => {
            assert_eq!(rt; made.as_slice(), b"resume.new".as_slice());
            assert_eq!(rt; from.as_slice(), b"resume.new".as_slice());
            assert_eq!(rt; path.as_slice(), b"resume".as_slice());
            let text = b"resume 1 000102030405060708090a0b0c0d0e0f 1\n";
            assert_eq!(rt; held.as_slice(), text.as_slice());
        }
        _ => assert!(rt; false),
    }
    Ok(())
}

/// The next upload goes on from the point that its resume file keeps: behind the only entry it has none.
#[test]
fn an_upload_goes_on_from_the_point_that_is_kept(rt: HostRuntime) -> Result<(), Fail> {
    let alloc = rt.alloc();
    let files = Memory::<Samples>::new(alloc);
    let source = Source {
        kind: InputKind::Export,
        id: "a0a1a2a3a4a5a6a7a8a9aaabacadaeaf",
        resume: "first",
        file: "export",
    };
    let mut output = Vec::new(alloc);
    assert!(rt; upload(&files, source, 1000, None, false, &mut output).is_ok());
    let header = b"JCUPLD01\x01\0\0\0\0\0\0\0\
        \xa0\xa1\xa2\xa3\xa4\xa5\xa6\xa7\xa8\xa9\xaa\xab\xac\xad\xae\xaf\
        \x01\0\0\0\0\0\0\0\0\0\0\0\0\0\0\0";
    assert_eq!(rt; output.as_slice(), header.as_slice());
    Ok(())
}
