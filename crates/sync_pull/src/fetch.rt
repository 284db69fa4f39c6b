//! The bytes of a target's blocks, put into the temporary file.
ghost use Rattle.std.specs.Option.{option_map_or};
ghost use Rattle.std.specs.Prelude.{◌≡◌, ◌≢◌, ◌+◌, ◌^◌, ◌<◌, ◌≤◌, ◌&&◌, IfErr, IfOk, IfSome, IsTrue, [], MatchBool, drop, length, slice_get, take, Some, true};
ghost use Rattle.file_store.specs.Calls.{ChangesTemp, HasBadParent};
ghost use Rattle.file_store.specs.Sequences.{CallsOnly, IsOfTemp, LooksOnly};
ghost use Rattle.folder_calls.specs.Shared.{Sees};
ghost use Rattle.sha2.specs.Sha256.{sha256};
ghost use Rattle.sync_blocks.specs.Groups.{blocks_from};
ghost use Rattle.sync_record.specs.Devices.{Identity};
ghost use Rattle.sync_record.specs.Records.{is_live_file};
ghost use Rattle.sync_record.specs.Validity.{is_valid};
ghost use Rattle.sync_pull.specs.Faults.{CountsStop};
ghost use Rattle.sync_pull.specs.Fetching.{AreFound, ArePut, Finds, HoldsBlocks, IsFound, IsNotPut, IsPut, IsPutOf, IsWritten};
ghost use Rattle.sync_pull.specs.Putting.{WritesTempAlone};
ghost use Rattle.sync_pull.specs.Sources.{AsksOnly, HasNoBytes, HasNoSource, Lacks};
ghost use Rattle.sync_pull.specs.declared.answer.Stop.TheVariants.{OutOfMemory};

use crate::answer::Stop;
use crate::pulling::Pulling;
use crate::{BlockSource, PullFailure};
use file_store::laws::bytes_written_are_read;
use file_store::{FileStore, Gate, GatePlace, read_full};
use folder_calls::FolderCalls;
use folder_core::Best;
use sha2::{Digest, Sha256};
use std::alloc::AllocError;
use std::thread::Threads;
use sync_blocks::laws::{block_list_is_by_cuts, parts_make_the_block_list, tiling_is_tested};
use sync_blocks::{Block, group_len, push_blocks};
use sync_names::SafeName;
use sync_record::laws::only_well_formed_files_have_blocks;
use sync_record::{Assembled, Assembly, DeviceId, Put, Record};

/// How many bytes of a file are found before they are hashed: so many that to start threads costs little, and so few that a source which is asked ahead gives
/// the next ones meanwhile.
const MAX_GROUP_BYTES: u64 = 16_777_216;

// A fetch of blocks: who pulls, of which name they are, which devices are asked for them, and which device asks.
#[derive(Drop)]
struct Fetch<'a, R, G> {
    pulling: &'a Pulling<'a, R, G>,
    name: &'a SafeName,
    devices: &'a [DeviceId],
    me: DeviceId,
}

// Blocks of a target that follow each other, as they were found.
#[derive(Drop)]
struct Group {
    // Their bytes, one block after the other.
    bytes: Vec<u8>,
    // For each how many of the devices need not be asked again.
    asked: Vec<usize>,
}

// A group whose bytes were hashed, and their block list, of blocks of this size.
#[derive(Drop)]
struct Hashed<'a> {
    group: &'a Group,
    blocks: &'a [Block],
    block_size: u32,
}

// Bytes that were found for a block, with their digest, and how many of the devices need not be asked again if they are not the block's.
#[derive(Drop)]
struct Found<'a> {
    bytes: &'a [u8],
    digest: [u8; 32],
    asked: usize,
}

// A file that is put together: what was put of it, and the buffers of its next group and block.
#[derive(Drop)]
struct Draft {
    assembly: Assembly,
    group: Group,
    bytes: Vec<u8>,
}

// Reads the bytes at a place in a local file that has the block's digest, if the folder knows one. Returns whether the file has
// as many there as the block has.
#[tactic(auto, using(crate::proofs::MomentLemmas::still))]
fn read_place<S: FileStore, W: FolderCalls, G: Gate>(
    store: &mut S,
    calls: &mut W,
    gate: &G,
    block: &Block,
    bytes: &mut Vec<u8>,
) -> Result<bool, Stop>
    ensures folder { W.folder calls.new ≡ W.folder calls.old }
    ensures sees { Sees (W.view calls.old) (W.view calls.new) }
    ensures counted { CountsStop ⊥ ⊥ result (S.fault_count store.old) (S.fault_count store.new) }
    ensures kept { S.keeps ≡ true → S.tree store.new ≡ S.tree store.old }
    ensures looks { LooksOnly S.gives store.old store.new }
    ensures whole { IfOk result (λ there. there ≡ true → length bytes.new.items ≡ block.now.size) }
{
    gate.at(GatePlace::FolderCall);
    let Some(place) = calls.find_block(&block.hash)?.value else {
        return Ok(false);
    };
    if place.offset.checked_add(u64::from(block.size)).is_none() {
        return Ok(false);
    }
    bytes.clear();
    bytes.resize(block.size as usize, 0)?;
    let count = read_full(store, gate, &place.name, place.offset, bytes.as_mut_slice())?;
    Ok(count == bytes.len())
}

// Asks the devices for the bytes of a block, one after the other but never this device, until one gives as many as the block has.
// Returns how many devices there are up to that one.
fn ask_devices<B: BlockSource, R, G>(
    source: &mut B,
    fetch: &Fetch<R, G>,
    block: &Block,
    bytes: &mut Vec<u8>,
) -> Result<Option<usize>, AllocError>
    requires { (device : Identity) → device ≢ fetch.now.me → B.may_ask device }
    ensures asks { IfOk result (λ _. AsksOnly B.gives fetch.now.name.now source.old source.new) }
    ensures finds { IfOk result (Finds B.gives fetch.now.me fetch.now.name.now fetch.now.devices.now
        source.new block.now bytes.new.items) }
{
    for i in 0..fetch.devices.len() {
        let device = fetch.devices[i];
        if device == fetch.me {
            continue;
        }
        bytes.clear();
        if source.fetch(device, fetch.name, block, bytes)?
            && bytes.len() as u64 == u64::from(block.size)
        {
            return Ok(Some(i + 1));
        }
    }
    Ok(None)
}

// Finds bytes of a block, and leaves them in `bytes`: none of an empty block, else those of a local place or of a device. Whether they
// have its digest is not tested yet. Returns how many of the devices need not be asked again: all of them for an empty block.
#[tactic(auto, using(crate::proofs::MomentLemmas::still))]
fn find_bytes<S: FileStore, W: FolderCalls, B: BlockSource, R, G: Gate>(
    store: &mut S,
    calls: &mut W,
    source: &mut B,
    fetch: &Fetch<R, G>,
    block: &Block,
    bytes: &mut Vec<u8>,
) -> Result<Option<usize>, Stop>
    requires { (device : Identity) → device ≢ fetch.now.me → B.may_ask device }
    ensures folder { W.folder calls.new ≡ W.folder calls.old }
    ensures sees { Sees (W.view calls.old) (W.view calls.new) }
    ensures counted { CountsStop ⊥ ⊥ result (S.fault_count store.old) (S.fault_count store.new) }
    ensures kept { S.keeps ≡ true → S.tree store.new ≡ S.tree store.old }
    ensures looks { LooksOnly S.gives store.old store.new }
    ensures asks { IfOk result (λ _. AsksOnly B.gives fetch.now.name.now source.old source.new) }
    ensures finds { IfOk result (Finds B.gives fetch.now.me fetch.now.name.now fetch.now.devices.now
        source.new block.now bytes.new.items) }
{
    if block.size == 0 {
        bytes.clear();
        return Ok(Some(fetch.devices.len()));
    }
    if read_place(store, calls, fetch.pulling.gate, block, bytes)? {
        return Ok(Some(0));
    }
    Ok(ask_devices(source, fetch, block, bytes)?)
}

// Finds bytes of the blocks, which become the group. Fails with `NoSource` if none gave as many bytes as a block has.
#[tactic(auto, using(crate::proofs::MomentLemmas::still))]
fn gather<S: FileStore, W: FolderCalls, B: BlockSource, R, G: Gate>(
    store: &mut S,
    calls: &mut W,
    source: &mut B,
    fetch: &Fetch<R, G>,
    blocks: &[Block],
    group: &mut Group,
    bytes: &mut Vec<u8>,
) -> Result<(), Stop>
    requires { (device : Identity) → device ≢ fetch.now.me → B.may_ask device }
    ensures each { IfOk result (λ _. length group.new.asked.items ≡ length blocks.now) }
    ensures found { IfOk result (λ _. AreFound (IsFound B.gives fetch.now.me fetch.now.name.now
        fetch.now.devices.now source.new) blocks.now group.new.bytes.items group.new.asked.items) }
    ensures folder { W.folder calls.new ≡ W.folder calls.old }
    ensures sees { Sees (W.view calls.old) (W.view calls.new) }
    ensures counted { CountsStop (Lacks B.gives fetch.now.me fetch.now.name.now fetch.now.devices.now source.new
        blocks.now) ⊥ result (S.fault_count store.old) (S.fault_count store.new) }
    ensures kept { S.keeps ≡ true → S.tree store.new ≡ S.tree store.old }
    ensures looks { LooksOnly S.gives store.old store.new }
{
    group.bytes.clear();
    group.asked.clear();
    for i in 0..blocks.len() {
        let block = &blocks[i];
        let Some(asked) = find_bytes(store, calls, source, fetch, block, bytes)? else {
            return Err(Stop::Failed(PullFailure::NoSource));
        };
        fetch.pulling.gate.at(GatePlace::Digest);
        group.bytes.extend_from_slice(bytes.as_slice())?;
        group.asked.extend_from_slice(&[asked])?;
    }
    Ok(())
}

// The digest of the bytes from an offset on: that of block `i` of those that were hashed, if it is of just these bytes.
fn digest_of(
    bytes: &[u8],
    offset: usize,
    found: &[u8],
    hashed: &[Block],
    block_size: u32,
    i: usize,
) -> [u8; 32]
    requires some { 1 ≤ block_size }
    requires hashed { hashed.now ≡ blocks_from 0 bytes.now block_size }
    requires found { found.now ≡ take (length found.now) (drop offset bytes.now) }
    ensures { result ≡ sha256 found.now }
{
    parts_make_the_block_list();
    block_list_is_by_cuts();
    if let Some(block) = hashed.get(i) {
        if block.offset == offset as u64 && block.size as usize == found.len() {
            return block.hash;
        }
    }
    Sha256::digest(found)
}

// Tries bytes with their digest as a block of the target. Returns whether they are the block's, and were put.
fn try_hashed(assembly: &mut Assembly, index: usize, bytes: &[u8], digest: &[u8; 32]) -> bool
    requires index { index < length assembly.old.target.blocks }
    requires digest { digest.now ≡ sha256 bytes.now }
    ensures { MatchBool result (IsPut index bytes.now assembly.old assembly.new)
        (IsNotPut index bytes.now assembly.old assembly.new) }
{
    match assembly.put_hashed(index, bytes, digest) {
        Put::Ok => true,
        Put::WrongSize => false,
        Put::WrongHash => false,
    }
}

// Tries the bytes as a block of the target. Returns whether they are the block's, and were put.
fn try_bytes<G: Gate>(gate: &G, assembly: &mut Assembly, index: usize, bytes: &[u8]) -> bool
    requires { index < length assembly.old.target.blocks }
    ensures { MatchBool result (IsPut index bytes.now assembly.old assembly.new)
        (IsNotPut index bytes.now assembly.old assembly.new) }
{
    gate.at(GatePlace::Digest);
    match assembly.put(index, bytes) {
        Put::Ok => true,
        Put::WrongSize => false,
        Put::WrongHash => false,
    }
}

// Asks the devices that were not asked yet for the bytes of a block, one after the other but never this device, until one gives them.
fn try_devices<B: BlockSource, R, G: Gate>(
    source: &mut B,
    fetch: &Fetch<R, G>,
    asked: usize,
    assembly: &mut Assembly,
    index: usize,
    bytes: &mut Vec<u8>,
) -> Result<bool, Stop>
    requires index { index < length assembly.old.target.blocks }
    requires others { (device : Identity) → device ≢ fetch.now.me → B.may_ask device }
    requires asked { IfSome (slice_get assembly.old.target.blocks index) (HasNoBytes B.gives fetch.now.me
        fetch.now.name.now (take asked fetch.now.devices.now) source.old) }
    ensures put { IfOk result (λ is_put. MatchBool is_put
        (IsPut index bytes.new.items assembly.old assembly.new) ((assembly.new ≡ assembly.old)
        × IfSome (slice_get assembly.old.target.blocks index) (HasNoBytes B.gives fetch.now.me
        fetch.now.name.now fetch.now.devices.now source.new))) }
    ensures asks { IfOk result (λ _. AsksOnly B.gives fetch.now.name.now source.old source.new) }
    ensures failed { IfErr result (λ stop. stop ≡ OutOfMemory) }
{
    let block = assembly.target().blocks()[index];
    for i in asked..fetch.devices.len() {
        let other = fetch.devices[i];
        if other == fetch.me {
            continue;
        }
        bytes.clear();
        if source.fetch(other, fetch.name, &block, bytes)?
            && try_bytes(fetch.pulling.gate, assembly, index, bytes.as_slice())
        {
            return Ok(true);
        }
    }
    Ok(false)
}

// Puts bytes that were found, with their digest, as a block; or if they are not the block's, bytes of a device that was not asked yet. They
// are written to the temporary file at the block's offset. Fails with `NoSource` if none gave them.
#[tactic(auto, using(crate::proofs::MomentLemmas::still))]
fn put_block<S: FileStore, B: BlockSource, R, G: Gate>(
    store: &mut S,
    source: &mut B,
    fetch: &Fetch<R, G>,
    assembly: &mut Assembly,
    index: usize,
    found: &Found,
    bytes: &mut Vec<u8>,
) -> Result<(), Stop>
    requires index { index < length assembly.old.target.blocks }
    requires digest { found.now.digest ≡ sha256 found.now.bytes.now }
    requires others { (device : Identity) → device ≢ fetch.now.me → B.may_ask device }
    requires found { IfSome (slice_get assembly.old.target.blocks index) (λ b. IsFound B.gives fetch.now.me
        fetch.now.name.now fetch.now.devices.now source.old b found.now.bytes.now found.now.asked) }
    ensures put { IfOk result (λ _. IsPutOf index assembly.old assembly.new) }
    ensures asks { IfOk result (λ _. AsksOnly B.gives fetch.now.name.now source.old source.new) }
    ensures written { S.keeps ≡ true → IfOk result (λ _. IfSome
        (slice_get assembly.old.target.blocks index)
        (λ b. IsWritten index b fetch.now.name.now assembly.old assembly.new (S.tree store.old)
        (S.tree store.new))) }
    ensures counted { CountsStop (IfSome (slice_get assembly.old.target.blocks index) (HasNoBytes B.gives
        fetch.now.me fetch.now.name.now fetch.now.devices.now source.new)) ⊥ result
        (S.fault_count store.old) (S.fault_count store.new) }
    ensures temp { S.keeps ≡ true →
        ChangesTemp (S.tree store.old) fetch.now.name.now (S.tree store.new) }
    ensures calls { CallsOnly S.gives (IsOfTemp fetch.now.name.now) store.old store.new }
{
    let offset = assembly.target().blocks()[index].offset;
    if try_hashed(assembly, index, found.bytes, &found.digest) {
        store.write_at(fetch.name, offset, found.bytes)?;
        return Ok(());
    }
    if !try_devices(source, fetch, found.asked, assembly, index, bytes)? {
        return Err(Stop::Failed(PullFailure::NoSource));
    }
    store.write_at(fetch.name, offset, bytes.as_slice())?;
    Ok(())
}

// Puts the blocks of a group, which begins at block `start`, and writes them to the temporary file, which has those before.
#[tactic(auto, using(crate::proofs::MomentLemmas::still))]
fn put_group<S: FileStore, B: BlockSource, R, G: Gate>(
    store: &mut S,
    source: &mut B,
    fetch: &Fetch<R, G>,
    assembly: &mut Assembly,
    start: usize,
    hashed: &Hashed,
    bytes: &mut Vec<u8>,
) -> Result<(), Stop>
    requires valid { IsTrue (is_valid assembly.old.target && is_live_file assembly.old.target) }
    requires within { start + length hashed.now.group.now.asked.items ≤ length assembly.old.target.blocks }
    requires fits { start + length hashed.now.group.now.asked.items < 2 ^ 64 }
    requires some { 1 ≤ hashed.now.block_size }
    requires hashed { hashed.now.blocks.now
        ≡ blocks_from 0 hashed.now.group.now.bytes.items hashed.now.block_size }
    requires others { (device : Identity) → device ≢ fetch.now.me → B.may_ask device }
    requires found { AreFound (IsFound B.gives fetch.now.me fetch.now.name.now fetch.now.devices.now source.old)
        (drop start assembly.old.target.blocks) hashed.now.group.now.bytes.items
        hashed.now.group.now.asked.items }
    requires put { ArePut start assembly.old }
    ensures target { IfOk result (λ _. assembly.new.target ≡ assembly.old.target) }
    ensures put { IfOk result (λ _. ArePut (start + length hashed.now.group.now.asked.items) assembly.new) }
    ensures held { S.keeps ≡ true
        → HoldsBlocks (take start assembly.old.target.blocks) fetch.now.name.now (S.tree store.old)
        → IfOk result (λ _. HoldsBlocks (take (start + length hashed.now.group.now.asked.items)
        assembly.old.target.blocks) fetch.now.name.now (S.tree store.new)) }
    ensures counted { CountsStop (Lacks B.gives fetch.now.me fetch.now.name.now fetch.now.devices.now source.new
        assembly.old.target.blocks) ⊥ result (S.fault_count store.old) (S.fault_count store.new) }
    ensures temp { S.keeps ≡ true →
        ChangesTemp (S.tree store.old) fetch.now.name.now (S.tree store.new) }
    ensures calls { CallsOnly S.gives (IsOfTemp fetch.now.name.now) store.old store.new }
{
    tiling_is_tested();
    only_well_formed_files_have_blocks();
    bytes_written_are_read();
    let group = hashed.group;
    let mut offset = 0;
    for i in 0..group.asked.len() {
        let size = assembly.target().blocks()[start + i].size as usize;
        let piece = &group.bytes[offset..offset + size];
        let digest = digest_of(
            group.bytes.as_slice(),
            offset,
            piece,
            hashed.blocks,
            hashed.block_size,
            i,
        );
        let found = Found {
            bytes: piece,
            digest,
            asked: group.asked[i],
        };
        put_block(store, source, fetch, assembly, start + i, &found, bytes)?;
        offset += size;
    }
    Ok(())
}

// Finds, hashes and puts so many blocks from block `start` on, and writes them to the temporary file, which has those before.
fn fetch_group<S: FileStore, W: FolderCalls, B: BlockSource, R: Threads + Sync, G: Gate>(
    store: &mut S,
    calls: &mut W,
    source: &mut B,
    fetch: &Fetch<R, G>,
    draft: &mut Draft,
    start: usize,
    count: usize,
) -> Result<(), Stop>
    requires valid { IsTrue (is_valid draft.old.assembly.target && is_live_file draft.old.assembly.target) }
    requires within { start + count ≤ length draft.old.assembly.target.blocks }
    requires others { (device : Identity) → device ≢ fetch.now.me → B.may_ask device }
    requires put { ArePut start draft.old.assembly }
    ensures folder { W.folder calls.new ≡ W.folder calls.old }
    ensures sees { Sees (W.view calls.old) (W.view calls.new) }
    ensures target { IfOk result (λ _. draft.new.assembly.target ≡ draft.old.assembly.target) }
    ensures put { IfOk result (λ _. ArePut (start + count) draft.new.assembly) }
    ensures held { S.keeps ≡ true
        → HoldsBlocks (take start draft.old.assembly.target.blocks) fetch.now.name.now (S.tree store.old)
        → IfOk result (λ _. HoldsBlocks (take (start + count) draft.old.assembly.target.blocks) fetch.now.name.now
        (S.tree store.new)) }
    ensures counted { CountsStop (Lacks B.gives fetch.now.me fetch.now.name.now fetch.now.devices.now source.new
        draft.old.assembly.target.blocks) ⊥ result (S.fault_count store.old) (S.fault_count store.new) }
    ensures temp { S.keeps ≡ true →
        ChangesTemp (S.tree store.old) fetch.now.name.now (S.tree store.new) }
    ensures calls { CallsOnly S.gives (IsOfTemp fetch.now.name.now) store.old store.new }
{
    let blocks = &draft.assembly.target().blocks()[start..start + count];
    gather(
        store,
        calls,
        source,
        fetch,
        blocks,
        &mut draft.group,
        &mut draft.bytes,
    )?;
    let pulling = fetch.pulling;
    let block_size = block_size_of(draft.assembly.target());
    let mut hashed = Vec::new(pulling.alloc);
    push_blocks(
        pulling.rt,
        pulling.alloc,
        0,
        draft.group.bytes.as_slice(),
        block_size,
        &mut hashed,
    )?;
    let hashed = Hashed {
        group: &draft.group,
        blocks: hashed.as_slice(),
        block_size,
    };
    put_group(
        store,
        source,
        fetch,
        &mut draft.assembly,
        start,
        &hashed,
        &mut draft.bytes,
    )
}

// Puts all blocks of a target and writes them to the temporary file, which is empty.
#[tactic(auto, using(crate::proofs::MomentLemmas::still))]
fn fetch_blocks<S: FileStore, W: FolderCalls, B: BlockSource, R: Threads + Sync, G: Gate>(
    store: &mut S,
    calls: &mut W,
    source: &mut B,
    fetch: &Fetch<R, G>,
    draft: &mut Draft,
) -> Result<(), Stop>
    requires valid { IsTrue (is_valid draft.old.assembly.target && is_live_file draft.old.assembly.target) }
    requires others { (device : Identity) → device ≢ fetch.now.me → B.may_ask device }
    requires none { ArePut 0 draft.old.assembly }
    ensures folder { W.folder calls.new ≡ W.folder calls.old }
    ensures sees { Sees (W.view calls.old) (W.view calls.new) }
    ensures target { IfOk result (λ _. draft.new.assembly.target ≡ draft.old.assembly.target) }
    ensures put { IfOk result (λ _. ArePut (length draft.old.assembly.target.blocks) draft.new.assembly) }
    ensures held { S.keeps ≡ true → (S.tree store.old).temps fetch.now.name.now ≡ Some []
        → IfOk result (λ _. HoldsBlocks draft.old.assembly.target.blocks fetch.now.name.now (S.tree store.new)) }
    ensures counted { CountsStop (Lacks B.gives fetch.now.me fetch.now.name.now fetch.now.devices.now source.new
        draft.old.assembly.target.blocks) ⊥ result (S.fault_count store.old) (S.fault_count store.new) }
    ensures temp { S.keeps ≡ true →
        ChangesTemp (S.tree store.old) fetch.now.name.now (S.tree store.new) }
    ensures calls { CallsOnly S.gives (IsOfTemp fetch.now.name.now) store.old store.new }
{
    let count = draft.assembly.target().blocks().len();
    let most = blocks_at_once(draft.assembly.target());
    let mut done = 0;
    while done < count {
        let next = most.min(count - done);
        fetch_group(store, calls, source, fetch, draft, done, next)?;
        done += next;
    }
    Ok(())
}

/// Puts a file together from its blocks in a new temporary file of the name. The blocks come from local places and from the devices
/// that have the best, in rising identity; this device is not asked. After a failure nothing but the temporary file, and missing
/// parents, which are made, has changed.
///
/// As many whole blocks as fit 16 MiB, and at least one, are found at once, and hashed in a few threads for each processor; one
/// block is hashed in this thread.
#[tactic(auto, using(crate::proofs::MomentLemmas::still))]
pub(crate) fn fetch_file<S: FileStore, W: FolderCalls, B: BlockSource, R: Threads + Sync, G: Gate>(
    pulling: &Pulling<R, G>,
    store: &mut S,
    calls: &mut W,
    source: &mut B,
    name: &SafeName,
    target: Record,
) -> Result<Assembled, Stop>
    requires valid { IsTrue (is_valid target && is_live_file target) }
    requires others { (device : Identity) → device ≢ (W.view calls.old).opening.me → B.may_ask device }
    ensures folder { W.folder calls.new ≡ W.folder calls.old }
    ensures sees { Sees (W.view calls.old) (W.view calls.new) }
    ensures target { IfOk result (λ file. file ≡ target) }
    ensures held { S.keeps ≡ true → IfOk result (λ _. HoldsBlocks target.blocks name.now (S.tree store.new)) }
    ensures counted { CountsStop (HasNoSource B.gives name.now source.new (W.view calls.new) target
        (W.view calls.old)) (S.keeps ≡ true → HasBadParent (S.tree store.old) name.now)
        result (S.fault_count store.old) (S.fault_count store.new) }
    ensures temp { S.keeps ≡ true → WritesTempAlone name.now (S.tree store.old) (S.tree store.new) }
    ensures calls { CallsOnly S.gives (IsOfTemp name.now) store.old store.new }
{
    store.make_temp(name)?;
    let assembly = Assembly::new(pulling.alloc, target)?;
    pulling.gate.at(GatePlace::FolderCall);
    let best = calls.best(name)?.value;
    let devices = devices_of(&best);
    source.will_ask(devices, name, assembly.target().blocks());
    let me = calls.me();
    let fetch = Fetch {
        pulling,
        name,
        devices,
        me,
    };
    let group = Group {
        bytes: Vec::with_capacity(pulling.alloc, bytes_at_once(assembly.target()))?,
        asked: Vec::new(pulling.alloc),
    };
    let mut draft = Draft {
        assembly,
        group,
        bytes: Vec::new(pulling.alloc),
    };
    fetch_blocks(store, calls, source, &fetch, &mut draft)?;
    match draft.assembly.done() {
        Ok(file) => Ok(file),
        Err(_) => Err(Stop::Failed(PullFailure::NoSource)),
    }
}

fn devices_of(best: &Option<Best>) -> &[DeviceId]
    ensures { result.now ≡ option_map_or (λ b. b.devices) best.now [] }
{
    match best {
        Some(best) => best.devices.as_slice(),
        None => &[],
    }
}

// The block size of a file that is well formed.
fn block_size_of(target: &Record) -> u32
    ensures { 1 ≤ result }
{
    u32::try_from(target.block_size()).unwrap_or(0).max(1)
}

// How many bytes of a file are found before they are hashed.
fn bytes_at_once(target: &Record) -> usize {
    let size = u64::try_from(target.size()).unwrap_or(0);
    group_len(size.min(MAX_GROUP_BYTES), block_size_of(target))
}

// How many blocks those are.
fn blocks_at_once(target: &Record) -> usize
    ensures { 1 ≤ result }
{
    bytes_at_once(target)
        .div_ceil(block_size_of(target) as usize)
        .max(1)
}
