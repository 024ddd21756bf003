ghost use Rattle.std.specs.Prelude.{◌≡◌, ◌≢◌, ◌<◌, ◌≤◌, ◌+◌, ◌-◌, ◌^◌, ℕ, Bool, List};
ghost use Rattle.std.specs.Prelude.{Option, Some, Err, IsTrue, IfOk, IfErr, OnOk, OnErr, IsOk, length};
ghost use Rattle.rx_outside.specs.Causes.{rise, Rose};
ghost use Rattle.rx_outside.specs.Files.{KeepsFiles, IsLength, GivesPart, OthersStay, HoldsNow};
ghost use Rattle.rx_outside.specs.Files.{LosesName, IsWhole, FaultShows, WholeTakes, TakesUpTo, most_taken};
ghost use Rattle.rx_outside.specs.Buffer.{IsFrontOf, EndsBy, FillsFront};
ghost use Rattle.rx_outside.specs.declared.files.FileFault.TheVariants.{ReadFault};

use crate::Failed;
use rx_value::Bytes;
use std::alloc::{AllocError, Global};
use thiserror::Error;

/// Named files.
pub trait Files {
    // the contents of a name; none where it is missing, or where nothing is told of it
    ghost told: { Self → List ℕ → Option (List ℕ) };
    // the failed calls so far
    ghost faults: { Self → ℕ };
    // the bytes handed out so far
    ghost taken: { Self → ℕ };
    // reading this name cannot fail
    ghost sure: { Self → List ℕ → Bool };
    // so many bytes can be put under this name, where it is a number
    ghost room: { Self → List ℕ → Option ℕ };

    /// The length of a file in bytes.
    ///
    /// # Errors
    /// The outside failed, or there is no file of this name.
    fn length(&mut self, name: &str) -> Result<u64, Failed>
        ensures later { faults self.old ≤ faults self.new }
        ensures cause { OnErr result (Rose (faults self.old) (faults self.new)) }
        ensures length { IfOk result (IsLength (told self.old name.now)) }
        ensures sure { IsTrue (sure self.old name.now) → IsOk result × (faults self.new ≡ faults self.old) }
        ensures keeps { KeepsFiles told sure room self.old self.new }
        ensures taken { taken self.new ≡ taken self.old };

    /// Reads the bytes of a file from the offset `at` on into the front of `into`, and answers how many: at least
    /// one where `at` is below the file's length and `into` isn't empty.
    ///
    /// # Errors
    /// The outside failed, or there is no file of this name. What `into` then has is not said.
    fn read_at(&mut self, name: &str, at: u64, into: &mut [u8]) -> Result<usize, Failed>
        ensures later { faults self.old ≤ faults self.new }
        ensures cause { OnErr result (Rose (faults self.old) (faults self.new)) }
        ensures bound { IfOk result (λ n. n ≤ length into.new) }
        ensures part { IfOk result (λ n. GivesPart (told self.old name.now) at into.new n) }
        ensures sure { IsTrue (sure self.old name.now) → IsOk result × (faults self.new ≡ faults self.old) }
        ensures keeps { KeepsFiles told sure room self.old self.new }
        ensures taken { IfOk result (λ n. taken self.new ≡ rise n (taken self.old)) }
        ensures refused { OnErr result (taken self.new ≡ taken self.old) };

    /// Puts these bytes under a name, in place of what it held.
    ///
    /// # Errors
    /// The outside failed. Then nothing is known of what this name holds; all other names stay.
    fn replace(&mut self, name: &str, bytes: &[u8]) -> Result<(), Failed>
        ensures later { faults self.old ≤ faults self.new }
        ensures cause { OnErr result (Rose (faults self.old) (faults self.new)) }
        ensures holds { OnOk result (HoldsNow (told self.old) (told self.new) name.now bytes.now) }
        ensures loses { OnErr result (LosesName (told self.old) (told self.new) name.now) }
        ensures room { (r : ℕ) → room self.old name.now ≡ Some r → length bytes.now ≤ r
            → IsOk result × (faults self.new ≡ faults self.old) }
        ensures keeps_sure { OthersStay (sure self.old) (sure self.new) name.now }
        ensures keeps_room { OthersStay (room self.old) (room self.new) name.now }
        ensures taken { taken self.new ≡ taken self.old };
}

/// Why a whole read has no answer.
#[derive(Debug, Drop, Error)]
pub enum FileFault {
    /// A read failed, or there is no file of this name.
    #[error("the file could not be read")]
    ReadFault,
    /// The file has this many bytes, which is more than the limit.
    #[error("the file is too long")]
    TooLong { length: u64 },
    /// Memory for the contents could not be had.
    #[error("out of memory")]
    NoMemory,
}

/// The whole contents of a file of at most `limit` bytes.
///
/// It reads up to the length that the file first answered, or to where a read gives nothing.
///
/// # Errors
/// `ReadFault` where a call of `files` failed, `TooLong` where the file has more bytes than `limit`, and `NoMemory`.
pub fn read_whole<F: Files>(
    alloc: Global,
    files: &mut F,
    name: &str,
    limit: u64,
) -> Result<Bytes, FileFault>
    ensures whole { IfOk result (IsWhole (F.told files.old name.now) limit) }
    ensures cause { IfErr result (FaultShows (F.faults files.old) (F.faults files.new) (F.told files.old name.now) limit) }
    ensures later { F.faults files.old ≤ F.faults files.new }
    ensures sure { IsTrue (F.sure files.old name.now)
        → (result ≢ Err ReadFault) × (F.faults files.new ≡ F.faults files.old) }
    ensures keeps { KeepsFiles F.told F.sure F.room files.old files.new }
    ensures taken { WholeTakes limit (F.taken files.old) (F.taken files.new) result }
    ensures bound { TakesUpTo (most_taken (F.told files.old name.now) limit) (F.taken files.old) (F.taken files.new) }
{
    let Ok(length) = files.length(name) else {
        return Err(FileFault::ReadFault);
    };
    if length > limit {
        return Err(FileFault::TooLong { length });
    }
    let Ok(mut bytes) = zeros(alloc, length as usize) else {
        return Err(FileFault::NoMemory);
    };
    let Ok(count) = fill(files, name, bytes.as_mut_slice()) else {
        return Err(FileFault::ReadFault);
    };
    bytes.truncate(count);
    Ok(Bytes::from_vec(bytes))
}

// Reads the front of a file into the buffer, up to the buffer's end or the file's, and answers how many bytes.
fn fill<F: Files>(files: &mut F, name: &str, buffer: &mut [u8]) -> Result<usize, Failed>
    ensures within { IfOk result (λ n. n ≤ length buffer.new) }
    ensures front { IfOk result (FillsFront (F.told files.old name.now) buffer.new) }
    ensures cause { OnErr result (Rose (F.faults files.old) (F.faults files.new)) }
    ensures later { F.faults files.old ≤ F.faults files.new }
    ensures sure { IsTrue (F.sure files.old name.now) → IsOk result × (F.faults files.new ≡ F.faults files.old) }
    ensures keeps { KeepsFiles F.told F.sure F.room files.old files.new }
    ensures taken { IfOk result (λ n. F.taken files.new ≡ rise n (F.taken files.old)) }
    ensures refused { OnErr result (TakesUpTo (length buffer.old) (F.taken files.old) (F.taken files.new)) }
{
    let mut at = 0;
    while at < buffer.len() {
        let Ok(n) = fill_more(files, name, at, buffer) else {
            return Err(Failed);
        };
        if n == 0 {
            break;
        }
        at += n;
    }
    Ok(at)
}

// Reads on from a place up to which the buffer is filled, and answers how many bytes.
fn fill_more<F: Files>(
    files: &mut F,
    name: &str,
    at: usize,
    buffer: &mut [u8],
) -> Result<usize, Failed>
    requires place { at < length buffer.old }
    requires filled { IsFrontOf (F.told files.old name.now) buffer.old at }
    ensures within { IfOk result (λ n. at + n ≤ length buffer.new) }
    ensures front { IfOk result (λ n. IsFrontOf (F.told files.old name.now) buffer.new (at + n)) }
    ensures stops { IfOk result (λ n. n ≡ 0 → EndsBy (F.told files.old name.now) at) }
    ensures cause { OnErr result (Rose (F.faults files.old) (F.faults files.new)) }
    ensures later { F.faults files.old ≤ F.faults files.new }
    ensures sure { IsTrue (F.sure files.old name.now) → IsOk result × (F.faults files.new ≡ F.faults files.old) }
    ensures keeps { KeepsFiles F.told F.sure F.room files.old files.new }
    ensures taken { IfOk result (λ n. F.taken files.new ≡ rise n (F.taken files.old)) }
    ensures refused { OnErr result (F.taken files.new ≡ F.taken files.old) }
{
    let n = files.read_at(name, at as u64, &mut buffer[at..])?;
    Ok(n)
}

fn zeros(alloc: Global, n: usize) -> Result<Vec<u8>, AllocError>
    ensures { IfOk result (λ v. length v.items ≡ n) }
{
    vec![in alloc; 0; n]
}
