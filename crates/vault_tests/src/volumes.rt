ghost use Rattle.std.specs.Prelude.{◌≡◌, IfSome};
ghost use Rattle.extent_map.specs.Map.{size_of};

use std::alloc::Global;
use std::test::Fail;
use std::{env, fs, process};
use vault_volume::{
    Access, BLOCK_BYTES, BlockFile, BlockFiles, Extent, ExtentMap, FileError, FileVolume,
    HostFiles, MemFile, MemFiles, MemVolume, Staged, Vault, Volume, read_head, write_head,
};

const BLOCK: usize = BLOCK_BYTES as usize;

const NUMBER: u64 = 0x0123_4567_89AB_CDEF;

const HELD: [u8; 3] = *b"abc";

static OLD: [u8; 6000] = [b'o'; 6000];

static NEW: [u8; 5000] = [b'n'; 5000];

// What the open bytes hold after a restart.
#[derive(Clone, Copy)]
enum Pattern {
    Zeros,
    Ones,
    Written,
    OldReversed,
    BlockZero,
}

const PATTERNS: [Pattern; 5] = [
    Pattern::Zeros,
    Pattern::Ones,
    Pattern::Written,
    Pattern::OldReversed,
    Pattern::BlockZero,
];

fn byte_of(pattern: Pattern, old: &[u8], i: usize) -> u8 {
    let at = match pattern {
        Pattern::Zeros => return 0,
        Pattern::Ones => return 255,
        Pattern::Written => return b'n',
        Pattern::OldReversed => old.len().saturating_sub(i).saturating_sub(1),
        Pattern::BlockZero => i % BLOCK,
    };
    old.get(at).copied().unwrap_or(0)
}

fn fill_of(alloc: Global, pattern: Pattern, old: &[u8]) -> Result<Vec<u8>, Fail> {
    let mut fill = Vec::with_capacity(alloc, old.len())?;
    for i in 0..old.len() {
        fill.push(byte_of(pattern, old, i))?;
    }
    Ok(fill)
}

fn copy_of(alloc: Global, bytes: &[u8]) -> Result<Vec<u8>, Fail> {
    let mut copy = Vec::new(alloc);
    copy.extend_from_slice(bytes)?;
    Ok(copy)
}

// Whether the vault has room and its volume answers.
fn keep<V: Volume>(alloc: Global, vault: &mut Vault<V>, bytes: &[u8]) -> bool {
    if bytes.is_empty() || bytes.len() > 1048576 || vault.volume().failures() > 9 {
        return false;
    }
    match vault.stage(alloc, bytes) {
        Ok(staged) => {
            let _ = staged.spend();
            true
        }
        Err(_) => false,
    }
}

// The map of a volume whose blocks are free from a place on.
fn map_from(alloc: Global, blocks: u32, place: u32) -> Option<ExtentMap>
    ensures { IfSome result (λ map. size_of map ≡ blocks) }
{
    if place < 2 {
        return ExtentMap::from_used(alloc, blocks, &[]).ok();
    }
    let used = Extent {
        start: 1,
        count: place - 1,
    };
    ExtentMap::from_used(alloc, blocks, &[used]).ok()
}

// Stages the bytes from a block on, and says whether that was done.
fn keep_from<V: Volume>(alloc: Global, volume: V, place: u32, bytes: &[u8]) -> (V, bool) {
    let Some(map) = map_from(alloc, volume.size(), place) else {
        return (volume, false);
    };
    let mut vault = Vault::over(volume, map);
    let kept = keep(alloc, &mut vault, bytes);
    (vault.into_inner(), kept)
}

fn name<V: Volume>(volume: &mut V) -> bool {
    volume.size() > 0 && volume.failures() < 9 && write_head(volume, NUMBER).is_ok()
}

fn number_of<V: Volume>(volume: &mut V) -> Option<u64> {
    if volume.failures() > 9 {
        return None;
    }
    read_head(volume).ok().flatten()
}

// The part of three bytes in block 1.
fn held<V: Volume>(alloc: Global, volume: V) -> (V, Vec<u8>) {
    let mut out = Vec::new(alloc);
    let extent = Extent { start: 1, count: 1 };
    if volume.size() < 2 || volume.failures() > 9 {
        return (volume, out);
    }
    let Some(map) = map_from(alloc, volume.size(), 2) else {
        return (volume, out);
    };
    let mut vault = Vault::over(volume, map);
    let _ = vault.read_part(&[extent], 3, &mut out);
    (vault.into_inner(), out)
}

// The head, a held part in block 1, and bytes that no record names in blocks 2 and 3.
fn prepared(alloc: Global) -> Result<MemVolume, Fail> {
    let mut volume = MemVolume::new(alloc, 4, 12, 6)?;
    let named = name(&mut volume);
    let (volume, held) = keep_from(alloc, volume, 1, &HELD);
    let (volume, old) = keep_from(alloc, volume, 2, &OLD);
    if !(named && held && old) {
        return Err(Fail::from("not prepared"));
    }
    Ok(volume)
}

fn restart(volume: &mut MemVolume, fill: &[u8]) {
    if fill.len() == BLOCK * volume.size() as usize {
        volume.restart(fill);
    }
}

// The image that is wanted after a stop: the bytes staged, or those of the restart, in the open range
// alone.
fn is_wanted(found: &[u8], old: &[u8], open: &[u8], written: bool) -> bool {
    found.iter().zip(old).zip(open).enumerate().all(|(i, ((found, old), open))| {
        if i < 8192 || i >= 13192 {
            found == old
        } else if written {
            *found == b'n'
        } else {
            found == open
        }
    })
}

fn stops_well(alloc: Global, stop: u64, pattern: Pattern) -> Result<bool, Fail> {
    let mut volume = prepared(alloc)?;
    let old = copy_of(alloc, volume.bytes())?;
    let fill = fill_of(alloc, pattern, &old)?;
    volume.stop_at((volume.calls() as u64).saturating_add(stop));
    let (mut volume, staged) = keep_from(alloc, volume, 2, &NEW);
    restart(&mut volume, &fill);
    let image = is_wanted(volume.bytes(), &old, &fill, staged);
    let number = number_of(&mut volume);
    let (_, held) = held(alloc, volume);
    Ok(
        image
            && staged == (stop == 2)
            && number == Some(NUMBER)
            && held.as_slice() == HELD.as_slice(),
    )
}

#[test]
fn a_stop_at_each_call_of_stage_spares_what_is_held(rt: HostRuntime) -> Result<(), Fail> {
    for stop in 0..3u64 {
        for pattern in PATTERNS {
            assert!(rt; stops_well(rt.alloc(), stop, pattern)?, "stop at {stop}");
        }
    }
    Ok(())
}

// Stages the bytes in two pieces, and tells whether that was done.
fn upload<V: Volume>(
    alloc: Global,
    vault: &mut Vault<V>,
    first: &[u8],
    rest: &[u8],
) -> Option<Staged> {
    let len = first.len().saturating_add(rest.len());
    if len == 0 || len > 1048576 || vault.volume().failures() > 9 {
        return None;
    }
    let Ok(mut opened) = vault.begin(alloc, len as u32) else {
        return None;
    };
    if vault.push(&mut opened, first).is_err() {
        vault.abandon(opened);
        return None;
    }
    if vault.push(&mut opened, rest).is_err() {
        vault.abandon(opened);
        return None;
    }
    vault.finish(opened).ok()
}

// Whether an upload that is stopped between its pieces leaves what is held, and its blocks free.
fn is_given_up(alloc: Global) -> Result<bool, Fail> {
    let mut volume = prepared(alloc)?;
    let old = copy_of(alloc, volume.bytes())?;
    let fill = fill_of(alloc, Pattern::Ones, &old)?;
    volume.stop_at((volume.calls() as u64).saturating_add(1));
    let map = map_from(alloc, volume.size(), 2).ok_or("a map")?;
    if map.size() != volume.size() {
        return Err(Fail::from("another size"));
    }
    let mut vault = Vault::over(volume, map);
    let (first, rest) = NEW.split_at(3000);
    let staged = upload(alloc, &mut vault, first, rest);
    let free = vault.free_blocks();
    let mut volume = vault.into_inner();
    restart(&mut volume, &fill);
    let is_spared = is_wanted(volume.bytes(), &old, &fill, false);
    let (volume, kept) = keep_from(alloc, volume, 2, &NEW);
    let (_, held) = held(alloc, volume);
    match staged {
        Some(staged) => {
            let _ = staged.spend();
            Ok(false)
        }
        None => Ok(free == 2 && is_spared && kept && held.as_slice() == HELD.as_slice()),
    }
}

#[test]
fn an_upload_stopped_between_its_pieces_leaves_nothing(rt: HostRuntime) -> Result<(), Fail> {
    assert!(rt; is_given_up(rt.alloc())?);
    Ok(())
}

// Stages a part, cancels it and stages it again. Tells how many blocks were free before, while the part
// was staged and once it was cancelled, and where it lies now.
fn stage_again<V: Volume>(
    alloc: Global,
    vault: &mut Vault<V>,
    bytes: &[u8],
) -> Option<((u32, u32, u32), Vec<Extent>)> {
    if bytes.is_empty() || bytes.len() > 1048576 || vault.volume().failures() > 9 {
        return None;
    }
    let before = vault.free_blocks();
    let Ok(first) = vault.stage(alloc, bytes) else {
        return None;
    };
    let between = vault.free_blocks();
    vault.cancel(first);
    let after = vault.free_blocks();
    let Ok(second) = vault.stage(alloc, bytes) else {
        return None;
    };
    let (extents, _, _) = second.spend();
    Some(((before, between, after), extents))
}

// Whether a part of two blocks that is cancelled gives them back, and the next one takes them.
fn is_cancelled(alloc: Global) -> Result<bool, Fail> {
    let volume = MemVolume::new(alloc, 4, 4, 2)?;
    let map = map_from(alloc, volume.size(), 1).ok_or("a map")?;
    if map.size() != volume.size() {
        return Err(Fail::from("another size"));
    }
    let mut vault = Vault::over(volume, map);
    let (free, extents) = stage_again(alloc, &mut vault, &NEW).ok_or("not staged")?;
    let first_two = Extent { start: 1, count: 2 };
    Ok(free == (3, 1, 3) && extents.as_slice() == [first_two].as_slice())
}

#[test]
fn a_cancelled_part_gives_its_blocks_back(rt: HostRuntime) -> Result<(), Fail> {
    assert!(rt; is_cancelled(rt.alloc())?);
    Ok(())
}

#[test]
fn block_0_has_the_number_in_lower_case(rt: HostRuntime) -> Result<(), Fail> {
    let mut volume = MemVolume::new(rt.alloc(), 1, 8, 4)?;
    assert_eq!(rt; number_of(&mut volume), None);
    assert!(rt; name(&mut volume));
    assert!(rt;
        volume
            .bytes()
            .starts_with(b"RDEVAULT1\n0123456789abcdef\n\0")
    );
    assert_eq!(rt; number_of(&mut volume), Some(NUMBER));
    assert!(rt; volume.size() == 1 && volume.failures() == 0);
    assert!(rt; volume.write_at(20, b"A").is_ok());
    assert!(rt; volume.failures() == 0);
    assert_eq!(rt; number_of(&mut volume), None);
    let mut empty = MemVolume::new(rt.alloc(), 0, 8, 4)?;
    assert_eq!(rt; number_of(&mut empty), None);
    Ok(())
}

#[test]
fn calls_fail_by_the_script(rt: HostRuntime) -> Result<(), Fail> {
    let mut volume = prepared(rt.alloc())?;
    let next = volume.calls() as u64;
    volume.fail_at(vec![in rt.alloc(); next]?);
    let (volume, first) = keep_from(rt.alloc(), volume, 2, &NEW);
    let (volume, second) = keep_from(rt.alloc(), volume, 2, &NEW);
    assert_eq!(rt; (first, second, volume.failures()), (false, true, 1));
    Ok(())
}

#[test]
fn without_room_each_call_fails(rt: HostRuntime) -> Result<(), Fail> {
    let volume = MemVolume::new(rt.alloc(), 2, 3, 1)?;
    let (volume, first) = keep_from(rt.alloc(), volume, 1, &HELD);
    let (mut volume, second) = keep_from(rt.alloc(), volume, 1, b"xyz");
    assert_eq!(rt; (first, second, volume.failures()), (true, false, 1));
    let fill = vec![in rt.alloc(); 255u8; 2 * BLOCK]?;
    restart(&mut volume, &fill);
    assert!(rt;
        volume
            .bytes()
            .iter()
            .skip(BLOCK)
            .take(3)
            .all(|byte| *byte == 255)
    );
    let (volume, third) = keep_from(rt.alloc(), volume, 1, &HELD);
    let (_, out) = held(rt.alloc(), volume);
    assert!(rt; third && out.as_slice() == HELD.as_slice());
    Ok(())
}

fn answers(volume: &mut MemVolume) -> bool {
    volume.size() > 0 && volume.failures() < 9 && volume.read(0, &mut [0]).is_ok()
}

#[test]
fn with_room_for_three_calls_the_fourth_fails(rt: HostRuntime) -> Result<(), Fail> {
    let mut volume = MemVolume::new(rt.alloc(), 1, 3, 3)?;
    for wanted in [true, true, true, false, false] {
        assert_eq!(rt; answers(&mut volume), wanted);
    }
    assert_eq!(rt; (volume.calls(), volume.failures()), (3, 2));
    Ok(())
}

fn has_kind<F: BlockFile>(opened: Result<FileVolume<F>, FileError>, kind: &str) -> bool {
    let found = match opened {
        Ok(_) => "opened",
        Err(FileError::Missing) => "missing",
        Err(FileError::Locked) => "locked",
        Err(FileError::WrongLength { .. }) => "length",
        Err(FileError::Io(_)) => "io",
    };
    found == kind
}

// The number of the system's error by which the last call failed.
fn cause_of<F: BlockFile>(volume: &FileVolume<F>) -> Option<i32> {
    volume.cause()?.raw_os_error()
}

#[test]
fn a_file_is_opened_again(rt: HostRuntime) -> Result<(), Fail> {
    let name_of = format!(in rt.alloc(); "vault-volume-test-{}", process::id(rt.process()))?;
    let folder = env::temp_dir(&rt)?.join(rt.alloc(), name_of.as_str())?;
    let path = folder.as_path().as_str();
    let mut files = HostFiles::new(&rt);
    assert!(rt;
        has_kind(
            FileVolume::open(&mut files, path, Access::ReadAndWrite),
            "missing"
        )
    );
    let mut volume = FileVolume::create(&mut files, path, 3)?;
    assert!(rt;
        has_kind(
            FileVolume::open(&mut files, path, Access::ReadAndWrite),
            "locked"
        )
    );
    assert!(rt; has_kind(FileVolume::create(&mut files, path, 1), "locked"));
    assert!(rt; name(&mut volume));
    let (volume, staged) = keep_from(rt.alloc(), volume, 1, &HELD);
    assert!(rt; staged && volume.size() == 3);
    drop(volume);
    let mut volume = FileVolume::open(&mut files, path, Access::ReadAndWrite)?;
    assert_eq!(rt; (volume.size(), number_of(&mut volume)), (3, Some(NUMBER)));
    let (volume, out) = held(rt.alloc(), volume);
    assert_eq!(rt; out.as_slice(), HELD.as_slice());
    drop(volume);
    let mut volume = FileVolume::open(&mut files, path, Access::Read)?;
    assert!(rt; volume.cause().is_none());
    assert!(rt; !name(&mut volume));
    // A file that is open only to be read is no file to write: EBADF.
    assert_eq!(rt; (volume.failures(), cause_of(&volume)), (1, Some(9)));
    assert_eq!(rt; number_of(&mut volume), Some(NUMBER));
    drop(volume);
    fs::write(&rt, path, b"short")?;
    assert!(rt;
        has_kind(
            FileVolume::open(&mut files, path, Access::ReadAndWrite),
            "length"
        )
    );
    fs::remove_file(&rt, path)?;
    Ok(())
}

// The machine of the volume's file stops and comes back.
fn stop(files: &mut MemFiles, volume: FileVolume<MemFile>, fill: &[u8]) {
    if fill.len() == BLOCK * volume.size() as usize {
        files.restart(volume.into_file(), fill);
    }
}

// Writes four bytes into block 2, and does not sync.
fn is_written<V: Volume>(volume: &mut V) -> bool {
    volume.size() > 2 && volume.failures() < 9 && volume.write_at(2 * BLOCK_BYTES, b"lost").is_ok()
}

// The first eight bytes of block 2.
fn read_back<V: Volume>(volume: &mut V) -> [u8; 8] {
    let mut out = [1; 8];
    if volume.size() > 2 && volume.failures() < 9 {
        let _ = volume.read(2 * BLOCK_BYTES, &mut out);
    }
    out
}

#[test]
fn a_file_in_memory_is_opened_after_a_stop(rt: HostRuntime) -> Result<(), Fail> {
    let mut files = MemFiles::new(rt.alloc(), format!(in rt.alloc(); "a")?, 5, 2);
    assert!(rt;
        has_kind(
            FileVolume::open(&mut files, "a", Access::ReadAndWrite),
            "missing"
        )
    );
    assert!(rt; has_kind(FileVolume::create(&mut files, "b", 3), "io"));
    let mut volume = FileVolume::create(&mut files, "a", 3)?;
    assert!(rt; name(&mut volume));
    let (mut volume, staged) = keep_from(rt.alloc(), volume, 1, &HELD);
    assert!(rt; staged && is_written(&mut volume) && volume.cause().is_none());
    // It has room for no more calls.
    assert!(rt; !is_written(&mut volume) && volume.cause().is_some());
    let fill = vec![in rt.alloc(); b'?'; 3 * BLOCK]?;
    stop(&mut files, volume, &fill);
    assert!(rt;
        has_kind(
            FileVolume::open(&mut files, "b", Access::ReadAndWrite),
            "missing"
        )
    );
    let mut volume = FileVolume::open(&mut files, "a", Access::ReadAndWrite)?;
    assert_eq!(rt; (volume.size(), volume.failures()), (3, 0));
    assert_eq!(rt; number_of(&mut volume), Some(NUMBER));
    assert_eq!(rt; read_back(&mut volume), *b"????\0\0\0\0");
    let (_, out) = held(rt.alloc(), volume);
    assert_eq!(rt; out.as_slice(), HELD.as_slice());
    Ok(())
}

#[test]
fn a_file_in_memory_is_opened_after_it_was_closed(rt: HostRuntime) -> Result<(), Fail> {
    let mut files = MemFiles::new(rt.alloc(), format!(in rt.alloc(); "a")?, 5, 2);
    let mut volume = FileVolume::create(&mut files, "a", 3)?;
    assert!(rt; is_written(&mut volume));
    files.close("a", volume.into_file());
    let mut volume = FileVolume::open(&mut files, "a", Access::ReadAndWrite)?;
    assert_eq!(rt; read_back(&mut volume), *b"lost\0\0\0\0");
    // Its bytes are settled.
    let fill = vec![in rt.alloc(); b'?'; 3 * BLOCK]?;
    stop(&mut files, volume, &fill);
    let mut volume = FileVolume::open(&mut files, "a", Access::ReadAndWrite)?;
    assert_eq!(rt; read_back(&mut volume), *b"lost\0\0\0\0");
    Ok(())
}
