//! What each code means, and what to do about it.

/// Two lines for each code: its number, its name and its meaning, as the table in docs/FORMATS.md has them, and what to
/// do.
pub const CODES: &str = "1   ShortHeader         an upload has fewer bytes than a header
                        it was cut off: send it again
2   BadMagic            an upload begins with neither `JCUPLD01` nor `JCUPLD02`
                        something else was sent: look at the file, and at its name
3   BadKind             the kind of an upload is unknown
                        it is damaged, or a newer program made it: update the collector
4   BadReserved         reserved bytes in an upload's header aren't as they have to be
                        it is damaged, or a newer program made it: update the collector
5   Incomplete          an upload that is to be whole has another number of entries, or ends within one
                        it was cut off: send it again
6   OverBounds          an upload passes a bound; the place is the number of the first entry that does, from 0
                        split the upload: the bounds were given to `inspect`
10  EmptyName           a field begins with `=`
                        the stream is damaged there: send what is before and after the damage, as `send` does
11  NameTooLong         a name is over its limit
                        no journal has such a name: the stream is damaged, or the file is something else
12  ValueTooLong        a value is over its limit
                        leave the entry out: the guide, \"An entry is over a limit\"
13  MissingNewline      no newline after a binary value
                        the stream is damaged there: send what is before and after the damage, as `send` does
14  TooManyFields       an entry has too many fields
                        leave the entry out: the guide, \"An entry is over a limit\"
15  EntryTooLong        an entry has too many bytes
                        leave the entry out: the guide, \"An entry is over a limit\"
20  DuplicateMeta       a known metadata name is there twice
                        the stream is damaged there: send what is before and after the damage, as `send` does
21  NoRealtime          `__REALTIME_TIMESTAMP` is missing
                        `journalctl --output=export` didn't write this: look at how the stream was made
22  NoMonotonic         `__MONOTONIC_TIMESTAMP` is missing
                        `journalctl --output=export` didn't write this: look at how the stream was made
23  NoSeqnum            `__SEQNUM` is missing
                        journalctl is older than 254: pass the stream through `fit-stream`
24  NoSeqnumId          `__SEQNUM_ID` is missing
                        journalctl is older than 254: pass the stream through `fit-stream`
25  BadNumber           a number is malformed or over 2^63 - 1
                        the stream is damaged there: send what is before and after the damage, as `send` does
26  BadId               the sequence id isn't 32 hexadecimal digits
                        write the id without dashes; otherwise the stream is damaged there
27  ZeroSeqnum          the sequence number is 0
                        the stream is damaged there: send what is before and after the damage, as `send` does
30  FileShort           a journal file has fewer bytes than a header
                        it was cut off, or it is no journal file: should KIND be `export`?
31  BadSignature        a journal file doesn't begin with `LPKSHHRH`
                        it is no journal file: should KIND be `export`?
32  BadHeaderSize       the header size of a journal file is too small, or isn't a multiple of 8
                        the file is damaged: `journalctl --file=FILE --output=export` gives what can be read of it
33  Compressed          a journal file has compressed objects
                        send it as a stream: `journalctl --file=FILE --output=export`
34  Compact             a journal file is in the compact layout
                        send it as a stream: `journalctl --file=FILE --output=export`
35  UnknownIncompatible a journal file has an unknown incompatible flag
                        a newer journald wrote it. Send it as a stream: `journalctl --file=FILE --output=export`
36  Sealed              a journal file is sealed
                        send it as a stream: `journalctl --file=FILE --output=export`
37  BadState            the state of a journal file is unknown
                        a newer journald wrote it, or it is damaged: send it as a stream
38  Truncated           a journal file ends before its arena does
                        it was cut off: copy it again
39  TooManyEntries      the arena has no room for the number of entries
                        the file is damaged: `journalctl --file=FILE --output=export` gives what can be read of it
40  ChainEnds           the chain of entry arrays ends before the last entry
                        it is damaged, or was copied while it was written to: take an archived file
41  BadOffset           an offset isn't that of an object in the arena
                        it is damaged, or was copied while it was written to: take an archived file
42  BadType             an object has another type than its place asks for
                        it is damaged, or was copied while it was written to: take an archived file
43  BadSize             an object's size doesn't fit its type or the arena
                        it is damaged, or was copied while it was written to: take an archived file
44  ChainBack           an entry array begins before the end of the one before it
                        it is damaged, or was copied while it was written to: take an archived file
45  CompressedObject    an object's payload is compressed
                        send it as a stream: `journalctl --file=FILE --output=export`
46  BadData             a payload isn't name, `=` and value
                        the file is damaged: `journalctl --file=FILE --output=export` gives what can be read of it
47  FileTooLong         a journal file is over its limit
                        send it as a stream: `journalctl --file=FILE --output=export`
60  Conflict            an entry differs from another one under the same key; the place is its number, from 0
                        the machine was set back or copied: the guide, \"A machine that was set back\"
61  ReadFailed          the upload couldn't be read
                        look at the disk that has the upload, and send it again
62  StoreFailed         the database failed; the upload may be stored whole
                        look at the disk of the database, see whether `check` finds its rows well, and send it again
63  OutOfMemory         memory was refused
                        give the command more memory, or begin another database
64  NotAJournal         a database has no journal of this version
                        name the right file; if it is this one, restore a backup
65  BadRow              a row isn't an entry; the place is its number in the order of keys, from 0
                        something else wrote it, or it is damaged: restore a backup
67  OldSchema           a database has a journal of an older version
                        `migrate` puts its entries into newer tables
70  SourceChanged       a source's entries no longer go on from the resume point
                        put the old stream back, or take a new id and remove the resume file
71  NotTheOwner         an entry's sequence belongs to another machine; the place is its number, from 0
                        the machine is a copy of that one, or renamed: the guide, \"A machine that was set back\"
";
