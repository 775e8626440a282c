//! What help says.

pub(crate) const NAME: &str = "journal-collect";

pub(crate) const VERSION: &str = "0.1.0";

pub(crate) const ABOUT: &str = "Collects the systemd journals of many machines";

pub(crate) const USAGE: &str = "journal-collect [--explain] [--json] <COMMAND>";

/// The end of the program's own help.
pub(crate) const MORE: &str =
    "--explain, anywhere among the arguments of any command, adds a line on standard error below what is refused or fails:
why it was, what its code means, and what to do.
--json, among those of check, codes, inspect and verify, prints an object of JSON in place of each line.

Exit status:
  0  all went well
  1  what was read or asked for is refused
  2  the command line is wrong
  3  a file, the database, standard output or memory failed
  4  of `acknowledged`: no answer is about the upload

share/doc/journal-collect, where this program is installed, has a guide (GUIDE.md), every rule (FORMATS.md), and how
large things can be and how fast (PERFORMANCE.md).

Example: a machine's new entries go into the database logs.db, and the machine keeps the answer
  journalctl --output=export > today.export
  journal-collect upload --source a0a1a2a3a4a5a6a7a8a9aaabacadaeaf --resume today.resume \\
    export today.export > today.upload
  journal-collect collect logs.db today.upload > today.answers
  journal-collect ack --source a0a1a2a3a4a5a6a7a8a9aaabacadaeaf --resume today.resume \\
    export today.export < today.answers";

pub(crate) const COLLECT: &str =
    "Stores the entries of uploads in a database and answers each upload with one line";

/// The name of the command in usage lines.
pub(crate) const COLLECT_NAME: &str = "journal-collect collect";

/// The mistake in arguments that name uploads in both ways, in the words that `clap` has for such mistakes.
pub(crate) const TWO_LISTS: &str =
    "the argument '--files-from <FILE>' cannot be used with '[UPLOAD]...'";

/// The mistake in arguments that name a folder of sequences, and uploads in another way than by a list.
pub(crate) const NO_LIST: &str =
    "the argument '--sequences <FOLDER>' cannot be used without '--files-from <FILE>'";

/// The mistake in arguments that bound the windows of sequences, and name no folder of these.
pub(crate) const NO_SEQUENCES: &str =
    "the argument '--most-windows <N>' cannot be used without '--sequences <FOLDER>'";

/// The name of the command in usage lines.
pub(crate) const OWNERS_NAME: &str = "journal-collect owners";

/// The mistake in arguments that change owners in two ways, or half.
pub(crate) const NO_CHANGE: &str =
    "the argument '--rename <OLD>' needs NEW, which goes with it alone, and cannot be used with '--release <SEQUENCE>'";

pub(crate) const COLLECT_MORE: &str =
    "The database is made if it is missing or empty. Prints one line for each upload, in their order:
  ack SOURCE START COUNT NEW LEFT  all COUNT complete entries are stored, and NEW of them weren't there before;
                                   the last LEFT bytes are an unfinished entry
  no SOURCE START CODE PLACE       it is refused and nothing of it is stored: what is wrong, and at which byte of its
                                   entries (after 60: at which entry, counted from 0; after 5: how many are complete);
                                   after 62, the database failed, it may be stored whole: send it again
  no - - CODE PLACE                the same, if the header of the upload can't be read
`journal-collect help codes` lists the codes.

With --files-from, each upload is opened when its turn comes. Those whose names wait, 64 at most, are stored together, and
then answered. One that can't be opened is answered `no - - 61 0`, and the next one is taken.

With --sequences, which needs --files-from, each upload is answered as if DB and all databases whose entries are noted
in FOLDER were one: NEW counts the entries that none of them has, and one that is noted isn't stored again. FOLDER is
made if it is missing. Entries of DB that aren't noted are noted first, and if one of them differs from the one that is
noted, `bad 60 PLACE` says which, counted from 0 in the order of `export`.

With --then-export, FILE gets what `export` would write then, or stays as it was if that fails. What is answered stays
stored.

A database with tables by number is smaller, and four times as fast. One that is there keeps the tables that it has.

Example: the uploads of two machines, and the answers to send back to them
  journal-collect collect logs.db web.upload mail.upload > answers

Example: all uploads below the folder incoming
  find incoming -name '*.upload' | journal-collect collect --files-from - logs.db > answers

Example: the same, where older databases have a part of the entries
  find incoming -name '*.upload' | journal-collect collect --sequences sequences --files-from - new.db > answers";

pub(crate) const EXPORT: &str = "Writes all stored entries to standard output, as an export stream";

pub(crate) const EXPORT_MORE: &str =
    "The entries come in the order of their sequence ids, and then of their numbers.

Example: all entries of the database logs.db
  journal-collect export logs.db > all.export";

pub(crate) const SHOW: &str = "Lists stored entries, a line for each";

pub(crate) const SHOW_MORE: &str = "Prints for each entry, in the order of `export`:
  ID NUMBER REALTIME MONOTONIC MESSAGE
ID is its sequence id, and both times are in microseconds. MESSAGE is `-` if the entry has none, and `[COUNT bytes]`
if it isn't plain text on one line. With --field, the line has that field in place of MESSAGE.

Example: the entries with the numbers 100 to 199
  journal-collect show logs.db --from 100 --to 199

Example: the boot of each entry
  journal-collect show logs.db --field _BOOT_ID";

pub(crate) const CHECK: &str =
    "Reads a database and prints how many entries it has, or what is wrong with it";

pub(crate) const CHECK_MORE: &str = "Prints one line:
  ok COUNT    the database has COUNT entries, and all of them were read
  bad 64 0    it isn't a database of this program, or it is damaged
  bad 65 ROW  the row with this number, counted from 0, isn't an entry
  bad 67 0    its tables are of an older version: see `migrate`
With --sequences it compares the entries with their notes, and notes nothing:
  ok COUNT LEFT  none of COUNT entries differs from its note; LEFT of them have none
  bad 60 PLACE   this entry, counted from 0 in the order of `export`, differs from its note

Example: a database of one entry prints `ok 1`
  journal-collect check logs.db";

pub(crate) const NOTES: &str = "Reads or shortens the notes of sequences in a folder";

pub(crate) const NOTES_MORE: &str = "TASK is one of three:
  has           for each line `SEQUENCE NUMBER` of standard input, `noted` or `lacking`
  forget-after  for each line `SEQUENCE WINDOW COUNT`, only the first COUNT notes of this window stay
  verify        for each window `SEQUENCE WINDOW COUNT SHA256`, how many notes it has and their sum; or
                `bad SEQUENCE WINDOW`, if its file can't be read, or has a note of another window
A window has 4,096 numbers of a sequence. What is forgotten may be stored again. Nobody may store meanwhile.

Example: whether entry 17 of a sequence is stored
  echo a0a1a2a3a4a5a6a7a8a9aaabacadaeaf 17 | journal-collect notes --sequences sequences has";

pub(crate) const OWNERS: &str = "Prints or changes which machine each sequence belongs to";

pub(crate) const OWNERS_MORE: &str = "Prints a line for each sequence that is a machine's:
  SEQUENCE SHA256  the digest of the machine's name
With --rename or --release, it does so for each sequence that it changes, with the digest that is noted then; a sequence
that is nobody's has `-`. Nobody may store meanwhile.

Example: the machine web is now called web1
  journal-collect owners --sequences sequences --rename web web1";

pub(crate) const MIGRATE: &str = "Puts the entries of a database with older tables into newer ones";

pub(crate) const MIGRATE_MORE: &str = "Prints one line:
  ok COUNT    the database has those tables now, with the same COUNT entries
  bad 64 0    it isn't a database with older tables, or it is damaged
  bad 65 ROW  the row with this number, counted from 0, isn't an entry
If it is refused or fails, and also if it is stopped, the database has all its entries, in tables of either version.

Example: a database that `check` refuses with `bad 67 0`
  journal-collect migrate logs.db";

pub(crate) const VERIFY: &str =
    "Reads a file and prints how many entries it has, or what is wrong with it";

pub(crate) const VERIFY_MORE: &str = "Prints one line:
  ok COUNT LEFT   COUNT complete entries were read; the last LEFT bytes are an unfinished entry
  bad CODE PLACE  what is wrong, and at which byte, counted from 0
`journal-collect help codes` lists the codes.

Example: how many entries the stream today.export has
  journal-collect verify export today.export";

pub(crate) const INSPECT: &str =
    "Reads an upload and prints what it has, or what is wrong with it, and stores nothing";

pub(crate) const INSPECT_MORE: &str = "Prints one line:
  upload SOURCE START COUNT LEFT ID NUMBER  its header names SOURCE and START; COUNT entries are complete, and the last
                                            of them has the sequence id ID and the number NUMBER, each `-` if COUNT is 0;
                                            the last LEFT bytes are an unfinished entry
  bad CODE PLACE                            what is wrong, and at which byte of its entries; with the codes 1 to 4, at
                                            which byte of its header; with 5, how many entries are complete, and with 6,
                                            which of them, counted from 0, is the first over a bound
`journal-collect help codes` lists the codes. No database is read: `collect` may still refuse the upload for an entry
that differs from a stored one.

Example: what the upload today.upload has
  journal-collect inspect today.upload";

pub(crate) const UPLOAD: &str = "Writes the next upload of a machine's journal to standard output";

pub(crate) const UPLOAD_MORE: &str =
    "For an export stream, an upload contains at most N entries (see --limit), starting after the resume point; for a
journal file, the whole file. With --bytes, it contains no more of these entries than fit into N bytes, of which its
header takes 48, and one entry even if that alone has more. With --whole, a collector refuses an upload that arrives
cut short, with the code 5, and stores nothing of it; without, it stores the entries that are complete.

Example: the next entries of the stream today.export, as an upload
  journal-collect upload --source a0a1a2a3a4a5a6a7a8a9aaabacadaeaf --resume today.resume \\
    export today.export > today.upload";

pub(crate) const ACK: &str =
    "Reads the collector's answers from standard input and writes the resume file";

pub(crate) const ACK_MORE: &str =
    "Prints `resume POSITION`: the first POSITION entries of the file are acknowledged.

Example: the collector's answers to the uploads of today.export
  journal-collect ack --source a0a1a2a3a4a5a6a7a8a9aaabacadaeaf --resume today.resume \\
    export today.export < today.answers";

pub(crate) const ACKNOWLEDGED: &str =
    "Reads the collector's answers from standard input and says whether all of an upload is stored";

pub(crate) const ACKNOWLEDGED_MORE: &str =
    "UPLOAD is one that `upload --whole` wrote, from the first entry of its source on; else the status is 2.

Exit status:
  0  an answer acknowledges all of it
  1  none does, and the last one that refuses it is printed
  4  no answer is about it

Example: a machine deletes what is stored
  journal-collect acknowledged today.upload < today.answers && rm today.upload";

pub(crate) const CODES_ABOUT: &str =
    "Prints what the codes in answers and in `bad` lines mean, and what to do";

pub(crate) const DATABASE_HELP: &str = "The SQLite database with the entries";

pub(crate) const UPLOADS_HELP: &str =
    "The files with the uploads, taken in this order; standard input if none is named";

pub(crate) const LIST_HELP: &str =
    "A file that names the uploads in place of UPLOAD, one on each line; `-` is standard input";

pub(crate) const SEQUENCES_HELP: &str =
    "The databases whose entries are noted in FOLDER and DB are one journal; with --files-from alone";

pub(crate) const NOTES_HELP: &str = "The folder in which sequences have their notes";

pub(crate) const CHECKED_NOTES_HELP: &str =
    "Compare the entries with those that are noted in FOLDER";

pub(crate) const TASK_HELP: &str = "What is to be done with the notes";

pub(crate) const RENAME_HELP: &str = "What belongs to the machine OLD belongs to NEW from now on";

pub(crate) const NEW_NAME_HELP: &str = "The other name of the machine OLD";

pub(crate) const RELEASE_HELP: &str =
    "This sequence belongs to the machine that brings a new entry of it next";

pub(crate) const MOST_WINDOWS_HELP: &str =
    "Refuse an upload at the first entry with which it touches over N windows of 4,096 numbers";

pub(crate) const THEN_EXPORT_HELP: &str =
    "A file that gets all stored entries as an export stream, once the uploads are answered";

pub(crate) const MADE_TABLES_HELP: &str =
    "The tables of a new database: 2 by key (the default), 3 by number";

pub(crate) const NEW_TABLES_HELP: &str =
    "The tables that the entries go into: 2 by key (the default), 3 by number";

pub(crate) const ID_HELP: &str = "Only entries with this sequence id, 32 hexadecimal digits";

pub(crate) const FIRST_HELP: &str = "Only entries with the number N or a greater one";

pub(crate) const LAST_HELP: &str = "Only entries with the number N or a smaller one";

pub(crate) const FIELD_HELP: &str = "The field that is printed in place of MESSAGE";

pub(crate) const KIND_HELP: &str = "What the file holds: an export stream, or a journal file";

pub(crate) const FILE_HELP: &str = "The file to read";

pub(crate) const UPLOAD_FILE_HELP: &str = "The file with the upload";

pub(crate) const MOST_ENTRIES_HELP: &str = "Refuse the upload at the first entry over N of them";

pub(crate) const MOST_FIELDS_HELP: &str =
    "Refuse it at the first entry with which all entries have over N fields";

pub(crate) const MOST_BYTES_HELP: &str =
    "Refuse it at the first entry with which names and values of all fields have over N bytes";

pub(crate) const SOURCE_HELP: &str =
    "The id of this stream or journal file, 32 hexadecimal digits; each has one id for good";

pub(crate) const RESUME_HELP: &str =
    "The file that keeps how many entries are acknowledged; `ack` makes it";

pub(crate) const LIMIT_HELP: &str =
    "At most N entries in the upload, 1,000 by default; not used for a journal file";

pub(crate) const BYTES_HELP: &str =
    "At most N bytes in the upload, or one entry if that has more; not used for a journal file";

pub(crate) const WHOLE_HELP: &str =
    "An upload that is stored whole or not at all; not used for a journal file";
