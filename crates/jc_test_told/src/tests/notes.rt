//! Notes of windows, over files that tell what they have, and where there is no file.

use crate::{Memory, Note, Windows};
use jc_base::Id128;
use jc_command_shared::Status;
use jc_ledger_files::WindowName;
use jc_notes::{forget_after, list_owners, rename_owner, say_noted, verify_notes};
use std::alloc::Global;
use std::test::Fail;

const SEQUENCE: Id128 = Id128([0, 1, 2, 3, 4, 5, 6, 7, 8, 9, 10, 11, 12, 13, 14, 15]);

/// The windows that have files, the last of which is that of the owner.
const WINDOWS: [WindowName; 3] = [
    WindowName {
        sequence: SEQUENCE,
        window: 0,
    },
    WindowName {
        sequence: SEQUENCE,
        window: 5,
    },
    WindowName {
        sequence: SEQUENCE,
        window: 1 << 51,
    },
];

/// What is printed of two keys by the notes in a folder.
fn said_in(alloc: Global, folder: &str) -> Option<Vec<u8>> {
    let files = Memory::<Windows>::new(alloc);
    let mut lines =
        b"000102030405060708090a0b0c0d0e0f 20481\n000102030405060708090a0b0c0d0e0f 2\n".as_slice();
    let mut output = Vec::new(alloc);
    say_noted(&files, folder, &mut lines, &mut output).ok()?;
    Some(output)
}

/// A key that has a note, and one that has none; and the same where no file is.
#[test]
fn notes_are_found_where_files_are(rt: HostRuntime) -> Result<(), Fail> {
    let alloc = rt.alloc();
    let there = said_in(alloc, "n");
    assert!(rt; there.is_some_and(|said| said.as_slice() == b"noted\nlacking\n".as_slice()));
    let missing = said_in(alloc, "m");
    assert!(rt; missing.is_some_and(|said| said.as_slice() == b"lacking\nlacking\n".as_slice()));
    Ok(())
}

/// Each window's own notes are summed, and the owner's window tells whose the sequence is.
#[test]
fn windows_are_told_apart(rt: HostRuntime) -> Result<(), Fail> {
    let alloc = rt.alloc();
    let files = Memory::<Windows>::new(alloc);
    let mut sums = Vec::new(alloc);
    let summed = verify_notes(&files, "n", &WINDOWS, &mut sums);
    assert!(rt; matches!(summed, Ok(Status::Success)));
    let lines = b"000102030405060708090a0b0c0d0e0f 0 1 \
        003450f0b14161ce224a63a710aee2fb3110f013d0e6e7eef4b59243ae1c56c4\n\
        000102030405060708090a0b0c0d0e0f 5 2 \
        af66a7ce829294367f3d08b0c327028d1b612bf96076103bf6ba568abf58e01e\n\
        000102030405060708090a0b0c0d0e0f 2251799813685248 1 \
        26aec277ff4c90d84c0d3dd22840993c49e464db5c12961559d76e59b8413e98\n";
    assert_eq!(rt; sums.as_slice(), lines.as_slice());
    let mut owners = Vec::new(alloc);
    let listed = list_owners(&files, "n", &WINDOWS, &mut owners);
    assert!(rt; matches!(listed, Ok(Status::Success)));
    let line = b"000102030405060708090a0b0c0d0e0f \
        4b5e57f6eb2f42b9039b3d1e13929295f231749c510cbe341cd68036d9af97e2\n";
    assert_eq!(rt; owners.as_slice(), line.as_slice());
    Ok(())
}

/// The note that the sequence is the other machine's takes the place of the owner's note, and no other window changes.
#[test]
fn an_owner_is_renamed(rt: HostRuntime) -> Result<(), Fail> {
    let alloc = rt.alloc();
    let mut files = Memory::<Windows>::new(alloc);
    let mut output = Vec::new(alloc);
    assert!(rt; rename_owner(&mut files, "n", &WINDOWS, "web", "mail", &mut output).is_ok());
    let line = b"000102030405060708090a0b0c0d0e0f \
        00d8d3f11739d2f3537099982b4674c29fc59a8fda350fca1379613adbb09119\n";
    assert_eq!(rt; output.as_slice(), line.as_slice());
    match files.notes() {
        [Note::Changed(made), Note::Put { from, path, held }] => {
            let at = b"n/000102030405060708090a0b0c0d0e0f/2251799813685248".as_slice();
            let beside = b"n/000102030405060708090a0b0c0d0e0f/2251799813685248.new".as_slice();
            assert_eq!(rt; made.as_slice(), beside);
            assert_eq!(rt; from.as_slice(), beside);
            assert_eq!(rt; path.as_slice(), at);
            let note = b"\x01\0\0\0\0\0\0\0\x80\
                \x00\xd8\xd3\xf1\x17\x39\xd2\xf3\x53\x70\x99\x98\x2b\x46\x74\xc2\
                \x9f\xc5\x9a\x8f\xda\x35\x0f\xca\x13\x79\x61\x3a\xdb\xb0\x91\x19\0";
            assert_eq!(rt; held.as_slice(), note.as_slice());
        }
        _ => assert!(rt; false),
    }
    Ok(())
}

/// What takes a window's place has no note. A window without a file stays without one.
#[test]
fn a_window_keeps_no_note(rt: HostRuntime) -> Result<(), Fail> {
    let alloc = rt.alloc();
    let mut files = Memory::<Windows>::new(alloc);
    let mut lines = b"000102030405060708090a0b0c0d0e0f 5 0\n".as_slice();
    assert!(rt; forget_after(&mut files, "n", &mut lines).is_ok());
    let mut lines = b"000102030405060708090a0b0c0d0e0f 5 0\n".as_slice();
    assert!(rt; forget_after(&mut files, "m", &mut lines).is_ok());
    match files.notes() {
        [Note::Changed(made), Note::Put { from, path, held }] => {
            let at = b"n/000102030405060708090a0b0c0d0e0f/5".as_slice();
            let beside = b"n/000102030405060708090a0b0c0d0e0f/5.new".as_slice();
            assert_eq!(rt; made.as_slice(), beside);
            assert_eq!(rt; from.as_slice(), beside);
            assert_eq!(rt; path.as_slice(), at);
            assert_eq!(rt; held.as_slice(), b"\0".as_slice());
        }
        _ => assert!(rt; false),
    }
    Ok(())
}
