//! Deposits that are packed from tables in any spelling of CSV, and what is not packed.
use crate::deposits::{DIFF, FULL, framed};
use deposit_name::{DepositId, DepositName, Kind, TableName};
use deposit_pack::{
    Attributes, Chain, ChainFault, LeftOut, NamedDeposit, PackError, Source, TableFile, check,
    law_packed, law_packing, law_refusals, left_out, pack, split, unpack,
};
use deposit_verify::Base;
use std::alloc::{AllocError, Global};
use std::test::Fail;

const FULL_NAME: &[u8] = b"example_2026-08-02_full_S1_R0.ryde";

const DIFF_NAME: &[u8] = b"example_2026-08-03_diff_S1_R0.ryde";

const SUNDAY_NAME: &[u8] = b"example_2026-08-09_diff_S1_R0.ryde";

const FULL_ID: &[u8] = b"20260802001";

const DIFF_ID: &[u8] = b"20260803001";

const NO_ID: &[u8] = b"-";

/// The name of a deposit, its id, and that of the one before it.
type Names = (&'static [u8], &'static [u8], &'static [u8]);

const FULL_NAMES: Names = (FULL_NAME, FULL_ID, NO_ID);

const DIFF_NAMES: Names = (DIFF_NAME, DIFF_ID, FULL_ID);

/// A file of a table.
type File = (TableName, &'static [u8]);

/// Eight tables below headers, with quotes that no field needs, and other ends of lines than a deposit has.
const TABLES: &[File] = &[
    (
        TableName::Domain,
        b"fName,fRoid,fRegistrant,fClID,fCrDate,fExDate\r\n\"a.example\",D1-EX,C1,R1,2020-01-01T00:00:00Z,2027-01-01T00:00:00Z\r\n",
    ),
    (
        TableName::DomainContacts,
        b"fName,fContactType,fId\r\na.example,\"admin\",C1\r\n",
    ),
    (TableName::DomainStatuses, b"fName,fStatus\n\na.example,ok"),
    (
        TableName::DomainNameServers,
        b"\"fName\",\"fHostName\"\na.example,ns1.a.example\n\n",
    ),
    (
        TableName::Host,
        b"fName,fRoid,fClID,fCrDate\r\nns1.a.example,H1-EX,\"R1\",2020-01-01T00:00:00Z\r\n",
    ),
    (
        TableName::HostAddresses,
        b"fName,fAddr,fAddrVersion\rns1.a.example,192.0.2.1,v4\r",
    ),
    (
        TableName::Contact,
        b"fId,fRoid,fClID,fCrDate\nC1,C1-EX,R1,2020-01-01T00:00:00Z\n",
    ),
    (
        TableName::Registrar,
        b"\xEF\xBB\xBFfId,fName,fGurid,fStatus\r\n\"R1\",\"Example, Inc.\",\"292\",ok\r\n",
    ),
];

/// The same in their one spelling.
static WRITTEN: [&[u8]; 8] = [
    b"a.example,D1-EX,C1,R1,2020-01-01T00:00:00Z,2027-01-01T00:00:00Z\n",
    b"a.example,admin,C1\n",
    b"a.example,ok\n",
    b"a.example,ns1.a.example\n",
    b"ns1.a.example,H1-EX,R1,2020-01-01T00:00:00Z\n",
    b"ns1.a.example,192.0.2.1,v4\n",
    b"C1,C1-EX,R1,2020-01-01T00:00:00Z\n",
    b"R1,\"Example, Inc.\",292,ok\n",
];

/// A registrar more, and a host that is gone.
const CHANGES: &[File] = &[(
    TableName::Registrar,
    b"fId,fName,fGurid,fStatus\r\nR2,\"Other\",,ok\r\n",
)];

const GONE: &[File] = &[(TableName::Host, b"fName\r\n\"ns1.a.example\"\r\n")];

/// Eight tables of one domain, whose registrar is not there.
const UNSPONSORED: &[File] = &[
    (
        TableName::Domain,
        b"fName,fRoid,fRegistrant,fClID,fCrDate,fExDate\na.example,D1-EX,,R1,2020-01-01T00:00:00Z,2027-01-01T00:00:00Z\n",
    ),
    (TableName::DomainContacts, b"fName,fContactType,fId\n"),
    (TableName::DomainStatuses, b"fName,fStatus\n"),
    (TableName::DomainNameServers, b"fName,fHostName\n"),
    (TableName::Host, b"fName,fRoid,fClID,fCrDate\n"),
    (TableName::HostAddresses, b"fName,fAddr,fAddrVersion\n"),
    (TableName::Contact, b"fId,fRoid,fClID,fCrDate\n"),
    (TableName::Registrar, b"fId,fName,fGurid,fStatus\n"),
];

fn attributes(name: &[u8], id: DepositId, prev_id: &[u8]) -> Result<Attributes, Fail> {
    Ok(Attributes {
        name: DepositName::parse(name)?,
        id,
        prev_id: DepositId::parse(prev_id),
    })
}

fn files(alloc: Global, files: &'static [File]) -> Result<Vec<TableFile<'static>>, AllocError> {
    files
        .iter()
        .map(|(name, text)| TableFile { name: *name, text })
        .collect(alloc)
}

/// The deposit of these files, which have headers.
fn packed(
    alloc: Global,
    (name, id, prev_id): Names,
    contents: &'static [File],
    deletes: &'static [File],
    base: Option<&Base>,
) -> Result<Vec<u8>, Fail> {
    let id = DepositId::parse(id).ok_or("an id")?;
    let attributes = attributes(name, id, prev_id)?;
    let contents = files(alloc, contents)?;
    let deletes = files(alloc, deletes)?;
    let source = Source {
        contents: &contents,
        deletes: &deletes,
        has_headers: true,
    };
    Ok(pack(alloc, &attributes, &source, base)?)
}

fn packed_full(alloc: Global) -> Result<Vec<u8>, Fail> {
    packed(alloc, FULL_NAMES, TABLES, &[], None)
}

fn packed_diff(alloc: Global, base: &Base) -> Result<Vec<u8>, Fail> {
    packed(alloc, DIFF_NAMES, CHANGES, GONE, Some(base))
}

/// What is told of objects that are not packed.
fn told(
    alloc: Global,
    attributes: &Attributes,
    source: &Source<'_>,
    base: Option<&Base>,
) -> Result<String, Fail> {
    let error = pack(alloc, attributes, source, base).err();
    Ok(format!(in alloc; "{}", error.ok_or("an error")?)?)
}

/// The same of these files, which have headers.
fn told_of_files(
    alloc: Global,
    (name, id, prev_id): Names,
    contents: &'static [File],
    deletes: &'static [File],
) -> Result<String, Fail> {
    let id = DepositId::parse(id).ok_or("an id")?;
    let attributes = attributes(name, id, prev_id)?;
    let contents = files(alloc, contents)?;
    let deletes = files(alloc, deletes)?;
    let source = Source {
        contents: &contents,
        deletes: &deletes,
        has_headers: true,
    };
    Ok(told(alloc, &attributes, &source, None)?)
}

/// The keys after a full deposit with no rows.
fn no_keys(alloc: Global) -> Result<Base, Fail> {
    let full = framed(alloc, FULL, &[])?;
    Ok(Base::of_full(alloc, full.as_bytes())?.ok_or("a full deposit")?)
}

#[test]
fn packs_what_passes(rt: HostRuntime) -> Result<(), Fail> {
    let alloc = rt.alloc();
    let id = DepositId::parse(FULL_ID).ok_or("an id")?;
    let attributes = attributes(FULL_NAME, id, NO_ID)?;
    let tables = files(alloc, TABLES)?;
    let source = Source {
        contents: &tables,
        deletes: &[],
        has_headers: true,
    };
    let deposit = pack(alloc, &attributes, &source, None)?;
    let (reason, _) = check(alloc, &attributes.name, &deposit, None)?;
    assert!(rt; reason.is_none());

    // One part holds it.
    let parts = split(alloc, &attributes.name, &deposit)?.ok_or("eight parts")?;
    assert_eq!(rt; parts.len(), 1);

    // The last table, in its one spelling.
    let unpacked = unpack(alloc, &deposit)??;
    let registrars = unpacked.contents.last().ok_or("a table")?;
    assert_eq!(rt;
        registrars.text,
        b"R1,\"Example, Inc.\",292,ok\n".as_slice()
    );
    Ok(())
}

#[test]
fn unpacks_each_table_in_its_one_spelling(rt: HostRuntime) -> Result<(), Fail> {
    law_packed();
    let alloc = rt.alloc();
    let deposit = packed_full(alloc)?;
    let unpacked = unpack(alloc, &deposit)??;
    assert!(rt; unpacked.envelope.starts_with(b"{\"contents\":["));
    assert_eq!(rt; unpacked.contents.len(), WRITTEN.len());
    assert_eq!(rt; unpacked.deletes.len(), 0);
    for (file, (name, _)) in unpacked.contents.iter().zip(TABLES) {
        assert!(rt; file.name == *name);
    }
    for (file, text) in unpacked.contents.iter().zip(&WRITTEN) {
        assert_eq!(rt; file.text, *text);
    }

    // What is unpacked is packed as the same deposit.
    let again = Source {
        contents: &unpacked.contents,
        deletes: &[],
        has_headers: false,
    };
    let id = DepositId::parse(FULL_ID).ok_or("an id")?;
    let attributes = attributes(FULL_NAME, id, NO_ID)?;
    assert!(rt; pack(alloc, &attributes, &again, None)? == deposit);
    Ok(())
}

#[test]
fn packs_known_deposits(rt: HostRuntime) -> Result<(), Fail> {
    law_packing();
    let alloc = rt.alloc();
    let base = no_keys(alloc)?;
    let diff = packed(alloc, DIFF_NAMES, &[], &[], Some(&base))?;
    assert_eq!(rt; diff.as_slice(), framed(alloc, DIFF, &[])?.as_bytes());
    Ok(())
}

#[test]
fn unpacks_no_other_bytes(rt: HostRuntime) -> Result<(), Fail> {
    let alloc = rt.alloc();
    let mut deposit = packed_full(alloc)?;
    deposit.push(b'R')?;
    let reason = unpack(alloc, &deposit)?.err().ok_or("a reason")?;
    let line = format!(in alloc; "{reason}")?;
    assert_eq!(rt;
        line.as_str(),
        "the files have 250 bytes, says the envelope, and 251 are there"
    );
    assert!(rt; unpack(alloc, b"RDE2")?.is_err());
    Ok(())
}

const NEXT_NAME: &[u8] = b"example_2026-08-04_diff_S1_R0.ryde";

/// The chain of a full deposit of 2026-08-02, for one of the next day.
fn chain_of_full(alloc: Global, full: &[u8]) -> Result<Chain, Fail> {
    let name = DepositName::parse(DIFF_NAME)?;
    let first = NamedDeposit {
        name: DepositName::parse(FULL_NAME)?,
        joined: full,
    };
    Ok(Chain::of(alloc, &name, &[first])?.map_err(|_| "a chain")?)
}

#[test]
fn counts_the_keys_after_a_chain(rt: HostRuntime) -> Result<(), Fail> {
    let alloc = rt.alloc();
    let full = packed_full(alloc)?;
    let chain = chain_of_full(alloc, &full)?;
    let diff = packed_diff(alloc, &chain.base)?;
    let name = DepositName::parse(DIFF_NAME)?;
    let (reason, chain) = check(alloc, &name, &diff, Some(chain))?;
    assert!(rt; reason.is_none());
    assert_eq!(rt; chain.ok_or("the chain")?.ids.len(), 1);

    // It counts the keys after another deposit, which only the chain tells.
    let base = no_keys(alloc)?;
    let other = packed_diff(alloc, &base)?;
    assert!(rt; check(alloc, &name, &other, None)?.0.is_none());
    let chain = chain_of_full(alloc, &full)?;
    let (reason, _) = check(alloc, &name, &other, Some(chain))?;
    let reason = reason.ok_or("a reason")?;
    let line = format!(in alloc; "{reason}")?;
    assert_eq!(rt;
        line.as_str(),
        "urn:ietf:params:xml:ns:csvContact-1.0 counts 0, 1 are there"
    );
    Ok(())
}

#[test]
fn chains_two_deposits(rt: HostRuntime) -> Result<(), Fail> {
    let alloc = rt.alloc();
    let mut bytes = packed_full(alloc)?;
    let chain = chain_of_full(alloc, &bytes)?;
    let diff = packed_diff(alloc, &chain.base)?;
    let length = bytes.len();
    bytes.extend_from_slice(&diff)?;
    let (full, diff) = bytes.split_at(length);
    let given = [
        NamedDeposit {
            name: DepositName::parse(FULL_NAME)?,
            joined: full,
        },
        NamedDeposit {
            name: DepositName::parse(DIFF_NAME)?,
            joined: diff,
        },
    ];
    let name = DepositName::parse(b"example_2026-08-05_diff_S1_R0.ryde")?;
    let chain = Chain::of(alloc, &name, &given)?.map_err(|_| "a chain")?;
    assert_eq!(rt; chain.ids.len(), 2);
    assert!(rt; chain.previous_id(Kind::Diff) == DepositId::parse(DIFF_ID));
    assert!(rt; chain.previous_id(Kind::Incr) == DepositId::parse(FULL_ID));
    assert!(rt; chain.previous_id(Kind::Full).is_none());
    Ok(())
}

/// Why deposits are no chain for one of a name.
fn fault(alloc: Global, name: &[u8], given: &[NamedDeposit]) -> Result<Option<ChainFault>, Fail> {
    let name = DepositName::parse(name)?;
    Ok(Chain::of(alloc, &name, given)?.err())
}

#[test]
fn tells_where_a_chain_breaks(rt: HostRuntime) -> Result<(), Fail> {
    let alloc = rt.alloc();
    let full = packed_full(alloc)?;
    let given = [
        NamedDeposit {
            name: DepositName::parse(FULL_NAME)?,
            joined: &full,
        },
        NamedDeposit {
            name: DepositName::parse(DIFF_NAME)?,
            joined: &full,
        },
    ];
    let given = &given[..];
    let broken = fault(alloc, NEXT_NAME, given)?;
    assert_eq!(rt; broken, Some(ChainFault::Deposit(1)));
    let broken = fault(alloc, NEXT_NAME, &given[1..])?;
    assert_eq!(rt; broken, Some(ChainFault::Deposit(0)));
    let broken = fault(alloc, DIFF_NAME, given)?;
    assert_eq!(rt; broken, Some(ChainFault::Order));
    let broken = fault(alloc, NEXT_NAME, &given[..0])?;
    assert_eq!(rt; broken, Some(ChainFault::Missing));
    Ok(())
}

/// The names of deposits, and why the differential one of 2026-08-05 follows none of them.
const GIVEN: [(&[u8], Option<LeftOut>); 8] = [
    (
        b"example_2026-07-26_full_S1_R0.ryde",
        Some(LeftOut::BeforeFull),
    ),
    (
        b"example_2026-07-27_diff_S1_R0.ryde",
        Some(LeftOut::BeforeFull),
    ),
    (FULL_NAME, Some(LeftOut::Replaced)),
    (b"example_2026-08-02_full_S1_R1.ryde", None),
    (DIFF_NAME, None),
    (b"example_2026-08-05_diff_S1_R0.ryde", Some(LeftOut::Itself)),
    (
        b"example_2026-08-05_diff_S1_R1.ryde",
        Some(LeftOut::NotEarlier),
    ),
    (
        b"example_2026-08-09_full_S1_R0.ryde",
        Some(LeftOut::NotEarlier),
    ),
];

#[test]
fn follows_the_deposits_since_the_latest_full_one(rt: HostRuntime) -> Result<(), Fail> {
    let alloc = rt.alloc();
    let mut names = Vec::new(alloc);
    for (name, _) in &GIVEN {
        names.push(DepositName::parse(name)?)?;
    }
    let name = DepositName::parse(b"example_2026-08-05_diff_S1_R0.ryde")?;
    for (one, (_, reason)) in names.iter().zip(&GIVEN) {
        assert!(rt; left_out(&names, &name, one) == *reason);
    }
    Ok(())
}

/// Files of tables and of deleted keys, and what is told of them.
type Case = (Names, &'static [File], &'static [File], &'static str);

static REFUSED: [Case; 12] = [
    (
        (SUNDAY_NAME, DIFF_ID, FULL_ID),
        &[],
        &[],
        "U1 2026-08-09 is a Sunday, and the deposit is not full",
    ),
    (
        (FULL_NAME, DIFF_ID, DIFF_ID),
        TABLES,
        &[],
        "U2 a full deposit follows none",
    ),
    (
        (DIFF_NAME, DIFF_ID, NO_ID),
        &[],
        &[],
        "U2 a differential deposit follows the latest that passed",
    ),
    (
        FULL_NAMES,
        TABLES,
        GONE,
        "U3 deletes/host.csv: a full deposit deletes nothing",
    ),
    (
        DIFF_NAMES,
        &[],
        &[(TableName::HostAddresses, b"fName\n")],
        "U3 deletes/hostAddresses.csv: only domains, hosts, contacts and registrars are deleted",
    ),
    (
        DIFF_NAMES,
        &[],
        &[(TableName::Host, b"ns1.a.example\n")],
        "U4 deletes/host.csv: the first row is not the names of its columns",
    ),
    (
        DIFF_NAMES,
        &[(
            TableName::Registrar,
            b"fId,fName,fGurid,fStatus\nR1,Example,0292,ok\n",
        )],
        &[],
        "U5 registrar.csv row 1 fGurid: not an IANA ID or empty: 0292",
    ),
    (
        DIFF_NAMES,
        &[],
        &[(TableName::Host, b"fName\nns1.a.example\nns1.a.example,\n")],
        "U5 deletes/host.csv row 2: 2 fields, 1 are wanted",
    ),
    (
        FULL_NAMES,
        CHANGES,
        &[],
        "U6 contents 1: registrar, domain is wanted",
    ),
    (
        DIFF_NAMES,
        &[
            (TableName::Host, b"fName,fRoid,fClID,fCrDate\n"),
            (
                TableName::Domain,
                b"fName,fRoid,fRegistrant,fClID,fCrDate,fExDate\n",
            ),
        ],
        &[],
        "U6 contents 2: domain behind host",
    ),
    (
        FULL_NAMES,
        UNSPONSORED,
        &[],
        "U7 domain.csv row 1 fClID: no registrar: R1",
    ),
    (
        DIFF_NAMES,
        CHANGES,
        GONE,
        "U8 the deposits that it follows are wanted",
    ),
];

#[test]
fn tells_why_objects_are_not_packed(rt: HostRuntime) -> Result<(), Fail> {
    law_refusals();
    let alloc = rt.alloc();
    for (names, contents, deletes, wanted) in &REFUSED {
        let line = told_of_files(alloc, *names, contents, deletes)?;
        assert_eq!(rt; line.as_str(), *wanted);
    }

    // No test has so many objects.
    let line = format!(in alloc; "{}", PackError::Count(TableName::Host))?;
    assert_eq!(rt; line.as_str(), "U9 host.csv: more than a count holds");
    Ok(())
}

/// More registrars than eight parts hold.
fn registrars(alloc: Global) -> Result<String, AllocError> {
    let name = "x".repeat(alloc, 255)?;
    let mut text = String::new(alloc);
    for i in 0..31_800 {
        let row = format!(in alloc; "R{i},{name},,ok\n")?;
        text.push_str(row.as_str())?;
    }
    Ok(text)
}

#[test]
fn packs_no_more_than_eight_parts(rt: HostRuntime) -> Result<(), Fail> {
    let alloc = rt.alloc();
    let text = registrars(alloc)?;
    let source = Source {
        contents: &[TableFile {
            name: TableName::Registrar,
            text: text.as_bytes(),
        }],
        deletes: &[],
        has_headers: false,
    };
    let base = no_keys(alloc)?;
    let id = DepositId::parse(DIFF_ID).ok_or("an id")?;
    let attributes = attributes(DIFF_NAME, id, FULL_ID)?;
    let line = told(alloc, &attributes, &source, Some(&base))?;
    assert_eq!(rt;
        line.as_str(),
        "U10 more bytes than eight parts of 1048576 hold"
    );
    Ok(())
}

/// Lengths of deposits, and how many parts each has.
static PARTS: [(usize, Option<usize>); 7] = [
    (0, Some(0)),
    (1, Some(1)),
    (1_048_576, Some(1)),
    (1_048_577, Some(2)),
    (2_097_153, Some(3)),
    (8_388_608, Some(8)),
    (8_388_609, None),
];

#[test]
fn splits_into_as_few_parts_as_can_be(rt: HostRuntime) -> Result<(), Fail> {
    let alloc = rt.alloc();
    let bytes = vec![in alloc; b'R'; 8_388_609]?;
    let name = DepositName::parse(FULL_NAME)?;
    for (length, count) in &PARTS {
        let deposit = bytes.get(..*length).ok_or("bytes")?;
        let parts = split(alloc, &name, deposit)?;
        assert_eq!(rt; parts.as_ref().map(|parts| parts.len()), *count);
    }
    let deposit = bytes.get(..2_097_153).ok_or("bytes")?;
    let parts = split(alloc, &name, deposit)?.ok_or("three parts")?;
    let last = parts.last().ok_or("a part")?;
    assert_eq!(rt; last.bytes, b"R".as_slice());
    let text = format!(in alloc; "{}", last.name)?;
    assert_eq!(rt; text.as_str(), "example_2026-08-02_full_S3_R0.ryde");
    Ok(())
}
