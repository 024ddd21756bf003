ghost use Rattle.std.specs.Prelude.{◌≡◌, nat_le, IfOk, OnOk, OnErr, IfSome, is_some, true, false, option_map, length};
ghost use Rattle.std.specs.List.{position};
ghost use Rattle.rx_outside.specs.Buffer.{CopiesPart};
ghost use Rattle.rx_outside.specs.Entries.{is_named, contents_in, room_in};
ghost use Rattle.rx_outside.specs.Entries.{ChangesEntry, with_contents, with_aside, filled, lost};
ghost use Rattle.rx_outside.specs.Memory.{has_room};

use rx_value::Bytes;
use std::alloc::{AllocError, Global};
use std::marker::Model;

/// Memory that is set aside, seen as its number of bytes.
#[derive(Drop)]
pub struct Aside {
    bytes: Vec<u8>,
}

impl Model for Aside {
    ghost use Rattle.std.specs.Prelude.{ℕ, ◌≡◌, vec_len, vec_capacity};

    ghost Value = { ℕ };

    ghost view = { λ a. vec_capacity a.bytes };

    ghost invariant = { λ a. vec_len a.bytes ≡ 0 };
}

impl Aside {
    /// Memory for `n` bytes.
    fn new(alloc: Global, n: usize) -> Result<Aside, AllocError>
        ensures { IfOk result (λ a. a ≡ n) }
    {
        let bytes = Vec::with_capacity(alloc, n)?;
        Ok(Aside { bytes })
    }

    /// These bytes in the memory set aside, or none where there are too many.
    fn filled(self, bytes: &[u8]) -> Option<Bytes>
        ensures answer { is_some result ≡ nat_le (length bytes.now) self }
        ensures bytes { IfSome result (λ b. b ≡ bytes.now) }
    {
        let mut all = self.bytes;
        if bytes.len() > all.capacity() || all.extend_from_slice(bytes).is_err() {
            return None;
        }
        Some(Bytes::from_vec(all))
    }
}

/// A name, and what stands under it.
#[derive(Drop)]
pub struct Entry {
    name: Bytes,
    contents: Option<Bytes>,
    told: bool,
    aside: Option<Aside>,
}

// The place of a name.
fn place_of(entries: &[Entry], name: &[u8]) -> Option<usize>
    ensures { result ≡ position (is_named name.now) entries.now }
{
    entries
        .iter()
        .position(|entry| entry.name.as_slice() == name)
}

/// The bytes under a name, where it is there.
pub fn contents_under<'a>(entries: &'a [Entry], name: &[u8]) -> Option<&'a [u8]>
    ensures { option_map (λ s. s.now) result ≡ contents_in entries.now name.now }
{
    for entry in entries {
        if entry.name.as_slice() == name {
            return entry.contents.as_ref().map(|bytes| bytes.as_slice());
        }
    }
    None
}

/// Puts a copy of these bytes under a name, in place of what it held.
pub fn put_contents(
    alloc: Global,
    entries: &mut Vec<Entry>,
    name: &[u8],
    bytes: &[u8],
) -> Result<(), AllocError>
    ensures ok { OnOk result
        (ChangesEntry entries.old.items entries.new.items name.now (with_contents name.now bytes.now)) }
    ensures err { OnErr result (entries.new.items ≡ entries.old.items) }
{
    let contents = Bytes::of(alloc, bytes)?;
    if let Some(place) = place_of(entries.as_slice(), name) {
        let entry = &mut entries[place];
        entry.contents = Some(contents);
        entry.told = true;
        return Ok(());
    }
    let name = Bytes::of(alloc, name)?;
    entries.push(Entry {
        name,
        contents: Some(contents),
        told: true,
        aside: None,
    })?;
    Ok(())
}

/// Sets room for `n` bytes aside for a name.
pub fn set_aside(
    alloc: Global,
    entries: &mut Vec<Entry>,
    name: &[u8],
    n: usize,
) -> Result<(), AllocError>
    ensures ok { OnOk result (ChangesEntry entries.old.items entries.new.items name.now (with_aside name.now n)) }
    ensures err { OnErr result (entries.new.items ≡ entries.old.items) }
{
    let aside = Aside::new(alloc, n)?;
    if let Some(place) = place_of(entries.as_slice(), name) {
        let entry = &mut entries[place];
        entry.aside = Some(aside);
        return Ok(());
    }
    let name = Bytes::of(alloc, name)?;
    entries.push(Entry {
        name,
        contents: None,
        told: true,
        aside: Some(aside),
    })?;
    Ok(())
}

// These bytes in the memory set aside, or none where it is too little.
fn refill(aside: Option<Aside>, bytes: &[u8]) -> Option<Bytes>
    ensures answer { is_some result ≡ has_room aside (length bytes.now) }
    ensures bytes { IfSome result (λ b. b ≡ bytes.now) }
{
    aside?.filled(bytes)
}

/// Puts these bytes under a name, in the memory set aside for it, and answers whether that was enough. Takes no
/// memory. What was set aside is used up either way.
pub fn fill_aside(entries: &mut [Entry], name: &[u8], bytes: &[u8]) -> bool
    ensures answer { result ≡ has_room (room_in entries.old name.now) (length bytes.now) }
    ensures filled { result ≡ true → ChangesEntry entries.old entries.new name.now (filled bytes.now) }
    ensures refused { result ≡ false → ChangesEntry entries.old entries.new name.now lost }
{
    let Some(place) = place_of(entries, name) else {
        return false;
    };
    let entry = &mut entries[place];
    let aside = entry.aside.take();
    let Some(contents) = refill(aside, bytes) else {
        entry.told = false;
        return false;
    };
    entry.contents = Some(contents);
    entry.told = true;
    true
}

/// Tells nothing of a name from now on, and lets go what is set aside for it.
pub fn lose(entries: &mut [Entry], name: &[u8])
    ensures { ChangesEntry entries.old entries.new name.now lost }
{
    let Some(place) = place_of(entries, name) else {
        return;
    };
    let entry = &mut entries[place];
    entry.told = false;
    entry.aside = None;
}

/// Copies what stands from an offset on into the front of a buffer, as much as there is room for.
pub fn copy_from(bytes: &[u8], at: u64, into: &mut [u8]) -> usize
    ensures { CopiesPart bytes.now at into.old into.new result }
{
    if at >= bytes.len() as u64 {
        return 0;
    }
    let rest = &bytes[at as usize..];
    let n = rest.len().min(into.len());
    into[..n].copy_from_slice(&rest[..n]);
    n
}
