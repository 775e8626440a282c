//! What a command line asks for.

/// What the command line asks for. Texts are as they were given.
#[derive(Drop)]
pub enum Request<'a> {
    /// Uploads taken into the journal of a database, in this order; if none is named, the one on standard input. The
    /// database is made in these tables if there is none. Once all are answered, the journal goes to a file as an export
    /// stream, if one is named.
    Collect {
        database: &'a str,
        tables: Tables,
        uploads: Vec<&'a str>,
        then_export: Option<&'a str>,
    },
    /// Uploads that the lines of a file name, where `-` is standard input, taken into the journal of a database. The
    /// database is made in these tables if there is none. Once all are answered, the journal goes to a file as an export
    /// stream, if one is named.
    CollectListed {
        database: &'a str,
        tables: Tables,
        list: &'a str,
        then_export: Option<&'a str>,
    },
    /// The same, where this database and those whose entries are noted in a folder are one journal. Their new entries are
    /// noted there too. An upload that touches more windows of sequences is refused, if they are bounded.
    CollectIntoUnion {
        database: &'a str,
        tables: Tables,
        list: &'a str,
        sequences: &'a str,
        most_windows: Option<u64>,
        then_export: Option<&'a str>,
    },
    /// All entries of the journal of a database, as an export stream.
    Export {
        database: &'a str,
    },
    /// A line for each entry of the journal of a database, with this sequence id if any, and with a number that is at
    /// least `first` and at most `last`. It ends with the field of this name, or with `MESSAGE` if none is named.
    Show {
        database: &'a str,
        field: Option<&'a str>,
        id: Option<&'a str>,
        first: u64,
        last: u64,
    },
    /// How many entries the journal of a database has, or what is wrong with it.
    Check {
        database: &'a str,
    },
    /// The same, and how many of its entries aren't noted in a folder; or which one differs from its note.
    CheckNoted {
        database: &'a str,
        sequences: &'a str,
    },
    /// What is to be done with the notes in a folder.
    Notes {
        sequences: &'a str,
        task: NotesTask,
    },
    /// Which sequence is which machine's, by the notes in a folder.
    ListOwners {
        sequences: &'a str,
    },
    /// What is noted there as a machine's is noted as another one's.
    RenameOwner {
        sequences: &'a str,
        old: &'a str,
        new: &'a str,
    },
    /// A sequence, by the digits of its id, is nobody's any more.
    ReleaseSequence {
        sequences: &'a str,
        sequence: &'a str,
    },
    /// The journal of a database put into these tables, or what is wrong with it.
    Migrate {
        database: &'a str,
        tables: Tables,
    },
    /// How the file reads.
    Verify {
        kind: InputKind,
        file: &'a str,
    },
    /// What the file says as an upload, up to the first entry with which it has more than this many entries, fields of
    /// all of them, or bytes of these fields' names and values, or touches more windows of sequences.
    Inspect {
        file: &'a str,
        most_entries: u64,
        most_fields: u64,
        most_bytes: u64,
        most_windows: u64,
    },
    /// The next upload of a source, of at most this many entries, and of no more than fit in this many bytes, if they are
    /// bounded; if it is to be whole, a collector takes all of it or nothing.
    Upload {
        source: Source<'a>,
        limit: u64,
        most_bytes: Option<u64>,
        whole: bool,
    },
    /// How far answers move a source on.
    Ack {
        source: Source<'a>,
    },
    /// Whether answers acknowledge all of an upload.
    Acknowledged {
        upload: &'a str,
    },
    /// What each code means.
    ListCodes,
}

/// What is to be done with notes.
#[derive(Clone, Copy)]
pub enum NotesTask {
    /// To say of each key on standard input whether it is noted.
    Has,
    /// To keep so many notes of each window on standard input.
    ForgetAfter,
    /// To read all of them.
    Verify,
}

/// The tables of a database.
#[derive(Clone, Copy)]
pub enum Tables {
    /// Those of schema 2, where a field is found by the key of its entry.
    ByKey,
    /// Those of schema 3, where a field is found by its number.
    ByNumber,
}

/// A machine's journal as a source of uploads.
#[derive(Clone, Copy)]
pub struct Source<'a> {
    pub kind: InputKind,
    /// Its id, as it was given.
    pub id: &'a str,
    /// The file that keeps how far its uploads have come.
    pub resume: &'a str,
    /// The file with its entries.
    pub file: &'a str,
}

/// What a file holds.
#[derive(Clone, Copy)]
pub enum InputKind {
    /// An export stream.
    Export,
    /// A journal file.
    File,
}
