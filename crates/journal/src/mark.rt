//! The mark: how far the file of an epoch was synced, and what of it was shown.
ghost use Rattle.std.specs.Prelude.{◌≡◌, ◌≤◌, ◌<◌, ◌^◌, ◌↔◌, ◌++◌, ℕ, Some, IfOk, codes, MatchBool, MatchOption, string_bytes};
ghost use Rattle.decimals.specs.Number.{number};
ghost use Rattle.journal.specs.Marks.{AreNumbers, IsFront, IsMark, ahead_of, mark_for, raise_by, seal_of, synced_by, word_of};
ghost use Rattle.hex.specs.Hex.{encode_lower};
ghost use Rattle.journal.specs.Names.{last_epoch};

use crate::boot::{BOOT_ID, BootId};
use crate::restored::Raise;
use decimals::parse_number;
use md5::{Digest, Md5};
use std::alloc::{AllocError, Global};
use std::str;

/// How many digits the number of the epoch has.
const EPOCH_DIGITS: usize = 10;

/// How many digits the number of synced bytes has.
const SYNCED_DIGITS: usize = 18;

/// What says that all that is shown is kept.
const KEPT: &[u8; 6] = b" kept ";

/// What says that all that is shown is appended.
const APPENDED: &[u8; 6] = b" seen ";

/// How many bytes the numbers have, with a space between.
const NUMBERS: usize = EPOCH_DIGITS + 1 + SYNCED_DIGITS;

/// How many bytes a mark has in front of its digest.
const FRONT: usize = NUMBERS + KEPT.len() + BOOT_ID;

/// How many bytes a mark has.
pub(crate) const MARK: usize = FRONT + 34;

/// How far the file of an epoch was synced, and what of it was shown. It is a hint: whatever it says, what begins is a legal
/// history, and where there is none, more numbers are left out.
#[derive(Clone, Copy, Debug, PartialEq, Eq)]
pub struct Mark {
    /// The number of the epoch.
    pub epoch: u64,
    /// How many bytes of its file the last good sync covered, below 10^18.
    pub synced: u64,
    /// Whether all that is shown is kept, and not only appended.
    pub shows_kept: bool,
    /// Which run of the system shows it.
    pub boot: BootId,
}

/// The mark of a text.
pub(crate) fn read_mark(text: &[u8]) -> Option<Mark>
    ensures { (mark : Mark) → (result ≡ Some mark) ↔ IsMark text.now mark }
{
    let (front, seal) = text.split_at_checked(FRONT)?;
    if seal != seal_of(front).as_slice() {
        return None;
    }
    read_front(front)
}

/// What a mark says, of the text in front of its digest.
fn read_front(front: &[u8]) -> Option<Mark>
    ensures { (mark : Mark) → (result ≡ Some mark) ↔ IsFront front.now mark }
{
    let (numbers, rest) = front.split_at_checked(NUMBERS)?;
    let (word, boot) = rest.split_at_checked(KEPT.len())?;
    let Some((epoch, synced)) = read_numbers(numbers) else {
        return None;
    };
    let Some(shows_kept) = is_kept(word) else {
        return None;
    };
    let Ok(text) = <[u8; BOOT_ID]>::try_from(boot) else {
        return None;
    };
    Some(Mark {
        epoch,
        synced,
        shows_kept,
        boot: BootId { text },
    })
}

/// The two numbers in front of it.
fn read_numbers(text: &[u8]) -> Option<(u64, u64)>
    ensures { (epoch synced : ℕ) → (result ≡ Some (epoch, synced)) ↔ AreNumbers text.now epoch synced }
{
    let (epoch, rest) = text.split_at_checked(EPOCH_DIGITS)?;
    let (space, synced) = rest.split_at_checked(1)?;
    if space != b" ".as_slice() || synced.len() != SYNCED_DIGITS {
        return None;
    }
    let Some(epoch) = number_of(epoch) else {
        return None;
    };
    let Some(synced) = number_of(synced) else {
        return None;
    };
    Some((epoch, synced))
}

/// The number of these digits.
fn number_of(digits: &[u8]) -> Option<u64>
    ensures { result ≡ number digits.now }
{
    let Ok(text) = str::from_utf8(digits) else {
        return None;
    };
    parse_number(text)
}

/// Whether the word says that all that is shown is kept. None where it is no word of a mark.
fn is_kept(word: &[u8]) -> Option<bool>
    ensures { (kept : _) → (result ≡ Some kept) ↔ (word.now ≡ word_of kept) }
{
    if word == KEPT.as_slice() {
        return Some(true);
    }
    if word == APPENDED.as_slice() {
        return Some(false);
    }
    None
}

/// A space, the MD5 of what is before in hex, and a line feed.
fn seal_of(front: &[u8]) -> [u8; 34]
    ensures { result ≡ seal_of front.now }
{
    let mut seal = [b'\n'; 34];
    seal[0] = b' ';
    let digest = lower_hex(Md5::digest(front));
    seal[1..33].copy_from_slice(&digest);
    seal
}

/// The 32 digits of a digest.
fn lower_hex(hash: [u8; 16]) -> [u8; 32]
    ensures { result ≡ encode_lower hash }
{
    let mut text = [0; 32];
    match hex::encode_to_slice(hash, &mut text) {
        Ok(()) => text,
        Err(_) => unreachable!(),
    }
}

/// The text of a mark.
pub(crate) fn mark_text(alloc: Global, mark: &Mark) -> Result<Vec<u8>, AllocError>
    ensures { mark.now.epoch ≤ last_epoch → mark.now.synced < 10 ^ 18
        → IfOk result (λ text. IsMark text.items mark.now) }
{
    let mut text = front_text(alloc, mark)?;
    let seal = seal_of(&text);
    text.extend_from_slice(&seal)?;
    Ok(text)
}

/// The text of a mark in front of its digest.
fn front_text(alloc: Global, mark: &Mark) -> Result<Vec<u8>, AllocError>
    ensures { mark.now.epoch ≤ last_epoch → mark.now.synced < 10 ^ 18
        → IfOk result (λ text. IsFront text.items mark.now) }
{
    let numbers = numbers_text(alloc, mark.epoch, mark.synced)?;
    joined(
        alloc,
        numbers.as_bytes(),
        word_of(mark.shows_kept),
        &mark.boot.text,
    )
}

/// Three pieces, one behind another.
fn joined(alloc: Global, one: &[u8], two: &[u8], three: &[u8]) -> Result<Vec<u8>, AllocError>
    ensures { IfOk result (λ text. text.items ≡ one.now ++ (two.now ++ three.now)) }
{
    let mut text = Vec::from_slice(alloc, one)?;
    text.extend_from_slice(two)?;
    text.extend_from_slice(three)?;
    Ok(text)
}

/// What says whether all that is shown is kept.
fn word_of(kept: bool) -> &'static [u8]
    ensures { result.now ≡ word_of kept }
{
    if kept {
        return KEPT;
    }
    APPENDED
}

/// The two numbers of a mark.
fn numbers_text(alloc: Global, epoch: u64, synced: u64) -> Result<String, AllocError>
    ensures { epoch ≤ last_epoch → synced < 10 ^ 18 → IfOk result (λ text. AreNumbers (string_bytes text) epoch synced) }
{
    format!(in alloc; "{epoch:010} {synced:018}")
}

/// The mark, where it is of this epoch.
pub(crate) fn mark_for(mark: Option<Mark>, epoch: u64) -> Option<Mark>
    ensures { result ≡ mark_for mark epoch }
{
    match mark {
        Some(mark) if mark.epoch == epoch => Some(mark),
        _ => None,
    }
}

/// An epoch above this one, of which the mark is.
pub(crate) fn ahead_of(mark: Option<Mark>, epoch: u64) -> Option<u64>
    ensures { result ≡ ahead_of mark epoch }
{
    match mark {
        Some(mark) if mark.epoch > epoch => Some(mark.epoch),
        _ => None,
    }
}

/// How many bytes of a file are taken to be synced.
pub(crate) fn synced_by(mark: Option<Mark>) -> u64
    ensures { result ≡ synced_by mark }
{
    match mark {
        Some(mark) => mark.synced,
        None => 0,
    }
}

/// Whether the numbers of a next epoch are raised over a file of this length.
pub(crate) fn raise_by(mark: Option<Mark>, boot: &BootId, len: u64) -> Raise
    ensures { result ≡ raise_by mark boot.now len }
{
    let Some(mark) = mark else {
        return Raise::Always;
    };
    if len < mark.synced {
        return Raise::Always;
    }
    if mark.shows_kept {
        return Raise::Never;
    }
    if mark.boot.is_same_run(boot) {
        return Raise::IfTorn;
    }
    Raise::BehindEntries
}
