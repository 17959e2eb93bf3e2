//! The words of the subcommands: one row each, with the texts of its help and an example.
ghost use Rattle.std.specs.Prelude.{◌≡◌, find, map};
ghost use Rattle.agent_cli.specs.Grammar.{is_named, rule_in, subcommands, words_of};

use vault_volume::{FEWEST_BLOCKS, MOST_BLOCKS};

/// What a call of the program asks for.
#[derive(Clone, Copy, Debug, PartialEq, Eq)]
pub(crate) enum Subcommand {
    Init,
    Register,
    Put,
    Preview,
    Verify,
    Due,
    Sweep,
    Purge,
    Hold,
    Lift,
    Release,
    Fetch,
    Report,
    Explain,
    Digests,
    State,
    Audit,
    Batch,
    Serve,
}

/// All of them, in the order in which help shows them.
pub(crate) const SUBCOMMANDS: [Subcommand; 19] = [
    Subcommand::Init,
    Subcommand::Register,
    Subcommand::Put,
    Subcommand::Preview,
    Subcommand::Verify,
    Subcommand::Due,
    Subcommand::Sweep,
    Subcommand::Purge,
    Subcommand::Hold,
    Subcommand::Lift,
    Subcommand::Release,
    Subcommand::Fetch,
    Subcommand::Report,
    Subcommand::Explain,
    Subcommand::Digests,
    Subcommand::State,
    Subcommand::Audit,
    Subcommand::Batch,
    Subcommand::Serve,
];

/// How an argument is given.
#[derive(Clone, Copy)]
pub(crate) enum WordForm<'a> {
    /// By its place. It has to be there.
    Place,
    /// As `--id VALUE`.
    Option {
        value: &'a str,
        required: bool,
    },
    /// As `--id N`, a number within bounds.
    Count {
        least: u32,
        most: u32,
        required: bool,
    },
    /// As `--id`, without a value.
    Flag,
}

/// An argument: how it is given, and what help says of it.
#[derive(Clone, Copy)]
pub(crate) struct Word<'a> {
    pub id: &'a str,
    pub form: WordForm<'a>,
    pub help: &'a str,
}

/// The words of a subcommand, and what help says of it.
#[derive(Clone, Copy)]
pub(crate) struct Row<'a> {
    pub name: &'a str,
    pub about: &'a str,
    /// What it prints, and an example.
    pub after: &'a str,
    pub words: &'a [Word<'a>],
}

/// The greatest number that `sweep --at-most` takes.
pub(crate) const MOST_ABSENCES: u32 = 1_000_000;

const DIR: Word<'static> = Word {
    id: "DIR",
    form: WordForm::Place,
    help: "Folder of the vault; it must exist",
};

const TLD: Word<'static> = Word {
    id: "TLD",
    form: WordForm::Place,
    help: "Top-level domain of the registry",
};

const DATE: Word<'static> = Word {
    id: "date",
    form: WordForm::Option {
        value: "DATE",
        required: true,
    },
    help: "Day of the deposit, such as 2026-08-02",
};

const REVISION: Word<'static> = Word {
    id: "revision",
    form: WordForm::Count {
        least: 0,
        most: 99,
        required: true,
    },
    help: "Resend number of the deposit, 0 to 99; 0 if the names of its parts end in R0.ryde",
};

static INIT: Row<'static> = Row {
    name: "init",
    about: "Makes a vault in a folder: the volume vault.vol and the database custody.db",
    after: "Prints: ready N HEX16\n\
            Example: escrow init vault --blocks 262144 --number 0000000000000001",
    words: &[
        DIR,
        Word {
            id: "blocks",
            form: WordForm::Count {
                least: FEWEST_BLOCKS,
                most: MOST_BLOCKS,
                required: true,
            },
            help: "Number of blocks of 4096 bytes, 2 to 262144; the first is the head of the volume",
        },
        Word {
            id: "number",
            form: WordForm::Option {
                value: "HEX16",
                required: true,
            },
            help: "Number of the volume, 16 lower-case hexadecimal digits",
        },
    ],
};

static REGISTER: Row<'static> = Row {
    name: "register",
    about: "Registers a registry; a repeat prints the first day on record",
    after: "Prints: registered TLD DATE\n\
            Example: escrow register vault example --first 2026-08-02",
    words: &[
        DIR,
        Word {
            id: "TLD",
            form: WordForm::Place,
            help: "Top-level domain of the registry: 1 to 63 of a-z 0-9 -, no hyphen at either end",
        },
        Word {
            id: "first",
            form: WordForm::Option {
                value: "DATE",
                required: true,
            },
            help: "First day for which a deposit is due, such as 2026-08-02",
        },
    ],
};

static PUT: Row<'static> = Row {
    name: "put",
    about: "Receives one part of a deposit; the same bytes again get the same answer",
    after: "Name: TLD_DATE_KIND_SN_RM.ryde, KIND full, diff or incr, N from 1 to 8, M from 0 to 99\n\
            Prints: received NAME LENGTH MOMENT\n\
            Example: escrow put vault example_2026-08-02_full_S1_R0.ryde --now 2026-08-02T10:00:00Z",
    words: &[
        DIR,
        Word {
            id: "FILE",
            form: WordForm::Place,
            help: "File of 1 to 1048576 bytes; its name is the name of the part",
        },
        Word {
            id: "now",
            form: WordForm::Option {
                value: "MOMENT",
                required: false,
            },
            help: "Moment of receipt, such as 2026-08-02T10:00:00Z (default: now)",
        },
    ],
};

/// What is stated of a deposit: the words of `preview` and of `verify`.
const STATEMENT_WORDS: &[Word<'static>] = &[
    DIR,
    TLD,
    DATE,
    Word {
        id: "kind",
        form: WordForm::Option {
            value: "KIND",
            required: true,
        },
        help: "Kind of the deposit: full, diff or incr",
    },
    REVISION,
    Word {
        id: "parts",
        form: WordForm::Count {
            least: 1,
            most: 8,
            required: true,
        },
        help: "Number of parts of the deposit, 1 to 8",
    },
    Word {
        id: "id",
        form: WordForm::Option {
            value: "ID",
            required: true,
        },
        help: "Id of the deposit in its envelope: 1 to 13 letters and digits",
    },
    Word {
        id: "now",
        form: WordForm::Option {
            value: "MOMENT",
            required: false,
        },
        help: "Moment of the notice, such as 2026-08-02T10:05:00Z (default: now)",
    },
];

static PREVIEW: Row<'static> = Row {
    name: "preview",
    about: "Prints the notice that verify would record, with number 0; records nothing",
    after: "Prints: 0 RECEIPT DATE RNN ID MOMENT TLD if the deposit passes,\n        \
            or 0 FAILURE-NN DATE RNN ID MOMENT TLD if check NN is the first that fails\n\
            Example: escrow preview vault example --date 2026-08-02 --kind full --revision 0 \
            --parts 1 --id 20260802001",
    words: STATEMENT_WORDS,
};

static VERIFY: Row<'static> = Row {
    name: "verify",
    about: "Verifies a deposit once all its parts are there; the same words again get the same answer",
    after: "Prints: NUMBER RECEIPT DATE RNN ID MOMENT TLD if the deposit passes,\n        \
            or NUMBER FAILURE-NN DATE RNN ID MOMENT TLD if check NN is the first that fails\n\
            Example: escrow verify vault example --date 2026-08-02 --kind full --revision 0 \
            --parts 1 --id 20260802001",
    words: STATEMENT_WORDS,
};

static DUE: Row<'static> = Row {
    name: "due",
    about: "Lists the days that a sweep would record as missed; records nothing",
    after: "Prints: due TLD DATE for each such day,\n        \
            parts TLD DATE REVISION N behind it if N of its parts are held\n\
            Example: escrow due vault --now 2026-08-10T12:00:00Z",
    words: &[
        DIR,
        Word {
            id: "now",
            form: WordForm::Option {
                value: "MOMENT",
                required: false,
            },
            help: "Moment for which the days are listed, such as 2026-08-10T12:00:00Z (default: now)",
        },
    ],
};

static SWEEP: Row<'static> = Row {
    name: "sweep",
    about: "Records an absence for every past day without a notice, for all registries",
    after: "Prints: NUMBER ABSENCE DATE --- - MOMENT TLD for each absence\n\
            Refused with Q23 and their number if more than N are due\n\
            Example: escrow sweep vault --now 2026-08-05T00:00:00Z",
    words: &[
        DIR,
        Word {
            id: "at-most",
            form: WordForm::Count {
                least: 0,
                most: MOST_ABSENCES,
                required: false,
            },
            help: "Record nothing if more than N absences are due, 0 to 1000000 (default: no limit)",
        },
        Word {
            id: "now",
            form: WordForm::Option {
                value: "MOMENT",
                required: false,
            },
            help: "Moment of the notices, such as 2026-08-05T00:00:00Z (default: now)",
        },
    ],
};

static PURGE: Row<'static> = Row {
    name: "purge",
    about: "Drops the bytes of each part that was kept for a year and is not on hold; its record stays",
    after: "Prints: dropped N, the number of these parts\n\
            Example: escrow purge vault --now 2027-08-04T00:00:00Z",
    words: &[
        DIR,
        Word {
            id: "now",
            form: WordForm::Option {
                value: "MOMENT",
                required: false,
            },
            help: "Moment of the purge, such as 2027-08-04T00:00:00Z (default: now)",
        },
    ],
};

static HOLD: Row<'static> = Row {
    name: "hold",
    about: "Puts a registry's day on hold: while the hold stands, a purge drops no part of that day",
    after: "Use it when a court or an authority orders you to keep the deposits of a day\n\
            The hold stands until lift ends it; its record stays, and a repeat does not renew it\n\
            Prints: held REF TLD DATE MOMENT\n\
            Example: escrow hold vault H-1 example --date 2026-08-02 --now 2027-07-30T12:00:00Z",
    words: &[
        DIR,
        Word {
            id: "REF",
            form: WordForm::Place,
            help: "Reference of the hold: 1 to 32 of A-Z a-z 0-9 -",
        },
        TLD,
        Word {
            id: "date",
            form: WordForm::Option {
                value: "DATE",
                required: true,
            },
            help: "Day of the deposits, such as 2026-08-02",
        },
        Word {
            id: "now",
            form: WordForm::Option {
                value: "MOMENT",
                required: false,
            },
            help: "Moment of the hold, such as 2027-07-30T12:00:00Z (default: now)",
        },
    ],
};

static LIFT: Row<'static> = Row {
    name: "lift",
    about: "Lifts a hold, so that it no longer keeps its day from a purge; its record stays",
    after: "While another hold of the day stands, a purge still drops no part of it\n\
            Prints: lifted REF MOMENT; a repeat prints the first MOMENT\n\
            Example: escrow lift vault H-1 --now 2028-02-01T12:00:00Z",
    words: &[
        DIR,
        Word {
            id: "REF",
            form: WordForm::Place,
            help: "Reference of the hold",
        },
        Word {
            id: "now",
            form: WordForm::Option {
                value: "MOMENT",
                required: false,
            },
            help: "Moment of the lifting, such as 2028-02-01T12:00:00Z (default: now)",
        },
    ],
};

static RELEASE: Row<'static> = Row {
    name: "release",
    about: "Records that a registry's deposits are released, and lists its held parts",
    after: "Ground: operator, termination, no_notices, sunday_failed, five_failed, insolvency, critical,\n        \
            order or audit\n\
            Prints: released REF TLD GROUND MOMENT N, then the N names, one a line\n\
            Example: escrow release vault R-1 example operator --now 2026-08-03T12:00:00Z",
    words: &[
        DIR,
        Word {
            id: "REF",
            form: WordForm::Place,
            help: "Reference of the release: 1 to 32 of A-Z a-z 0-9 -",
        },
        TLD,
        Word {
            id: "GROUND",
            form: WordForm::Place,
            help: "Ground of the release",
        },
        Word {
            id: "now",
            form: WordForm::Option {
                value: "MOMENT",
                required: false,
            },
            help: "Moment of the release, such as 2026-08-03T12:00:00Z (default: now)",
        },
    ],
};

static FETCH: Row<'static> = Row {
    name: "fetch",
    about: "Writes the bytes of a part of a release to standard output",
    after: "Writes the bytes that were received, and nothing else\n\
            Example: escrow fetch vault R-1 example_2026-08-02_full_S1_R0.ryde > part.ryde",
    words: &[
        DIR,
        Word {
            id: "REF",
            form: WordForm::Place,
            help: "Reference of the release",
        },
        Word {
            id: "NAME",
            form: WordForm::Place,
            help: "Name of a part that the release lists",
        },
    ],
};

static REPORT: Row<'static> = Row {
    name: "report",
    about: "Prints the notices of a registry",
    after: "Prints: NUMBER RECEIPT DATE RNN ID MOMENT TLD, as verify prints a notice\n\
            Example: escrow report vault example",
    words: &[DIR, TLD],
};

static EXPLAIN: Row<'static> = Row {
    name: "explain",
    about: "Prints why a revision failed",
    after: "Prints: FAILURE-NN REASON\n\
            Example: escrow explain vault example --date 2026-08-02 --revision 0",
    words: &[DIR, TLD, DATE, REVISION],
};

static DIGESTS: Row<'static> = Row {
    name: "digests",
    about: "Prints the SHA-256 of each part of a registry, held or dropped",
    after: "Prints: SHA256  NAME, as sha256sum -c reads it\n\
            Example: escrow digests vault example",
    words: &[DIR, TLD],
};

static STATE: Row<'static> = Row {
    name: "state",
    about: "Prints all records: registries with their parts and notices, releases, holds and free blocks",
    after: "Prints: registry TLD DATE\n        \
            part NAME LENGTH held MOMENT\n        \
            NUMBER RECEIPT DATE RNN ID MOMENT TLD, as verify prints a notice\n        \
            release REF TLD GROUND MOMENT N\n        \
            hold REF TLD DATE MOMENT [lifted MOMENT]\n        \
            free F of T\n\
            Example: escrow state vault",
    words: &[DIR],
};

static AUDIT: Row<'static> = Row {
    name: "audit",
    about: "Reads each held part and compares it with its recorded digest",
    after: "Prints: damaged NAME for each part that differs from its digest,\n        \
            or sound N, the number of held parts, if none differs\n\
            Example: escrow audit vault",
    words: &[DIR],
};

static BATCH: Row<'static> = Row {
    name: "batch",
    about: "Does the commands that standard input lists, on a vault that it opens once",
    after: "Line: a command without escrow and DIR, such as put FILE; white space parts its words\n\
            Prints: what each command prints, before it reads the next line\n\
            Ends: with 2 at a line that is no command, or one with batch or serve;\n      \
            with 3 once C2 or C3 closes the vault; else with the highest status of its commands\n\
            Example: ls *.ryde | sed 's/^/put /' | escrow batch vault",
    words: &[DIR],
};

static SERVE: Row<'static> = Row {
    name: "serve",
    about: "Serves requests over HTTP on 127.0.0.1, one connection at a time",
    after: "Prints: listening 127.0.0.1:P\n\
            Errors: read failed or write failed for a connection; C2 or C3 when it closes the vault\n\
            Example: escrow serve vault --port 8080 --requests 1000000 --until-closed",
    words: &[
        DIR,
        Word {
            id: "port",
            form: WordForm::Count {
                least: 1,
                most: 65_535,
                required: true,
            },
            help: "Port of 127.0.0.1 to listen on, 1 to 65535",
        },
        Word {
            id: "requests",
            form: WordForm::Count {
                least: 1,
                most: 1_000_000,
                required: true,
            },
            help: "Number of connections to serve before it ends, 1 to 1000000",
        },
        Word {
            id: "until-closed",
            form: WordForm::Flag,
            help: "End with status 3 when C2 or C3 closes the vault (default: answer C4 from then on)",
        },
        Word {
            id: "now",
            form: WordForm::Option {
                value: "MOMENT",
                required: false,
            },
            help: "Moment of each request, such as 2026-08-02T10:00:00Z (default: the clock, read for each)",
        },
    ],
};

impl Subcommand {
    /// Its row of the table.
    pub(crate) fn row(self) -> &'static Row<'static>
        ensures name { result.now.name.now ≡ (words_of self).0 }
        ensures words { map rule_in result.now.words.now ≡ (words_of self).1 }
    {
        match self {
            Subcommand::Init => &INIT,
            Subcommand::Register => &REGISTER,
            Subcommand::Put => &PUT,
            Subcommand::Preview => &PREVIEW,
            Subcommand::Verify => &VERIFY,
            Subcommand::Due => &DUE,
            Subcommand::Sweep => &SWEEP,
            Subcommand::Purge => &PURGE,
            Subcommand::Hold => &HOLD,
            Subcommand::Lift => &LIFT,
            Subcommand::Release => &RELEASE,
            Subcommand::Fetch => &FETCH,
            Subcommand::Report => &REPORT,
            Subcommand::Explain => &EXPLAIN,
            Subcommand::Digests => &DIGESTS,
            Subcommand::State => &STATE,
            Subcommand::Audit => &AUDIT,
            Subcommand::Batch => &BATCH,
            Subcommand::Serve => &SERVE,
        }
    }

    fn is_named(self, name: &str) -> bool
        ensures { result ≡ is_named name.now self }
    {
        self.row().name == name
    }

    /// The subcommand of that name.
    pub(crate) fn named(name: &str) -> Option<Subcommand>
        ensures { result ≡ find (is_named name.now) subcommands }
    {
        SUBCOMMANDS
            .iter()
            .find(|subcommand| subcommand.is_named(name))
            .copied()
    }
}
