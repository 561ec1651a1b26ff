// The page of an end, on which the numbers that it has used survive a loss of power: question 15, and the one store of a call.
// A page is lent as the start of a buffer that may be longer, so it stays a slice: an array of its size would ask more of callers.
#![tactic(auto)]

ghost use Rattle.std.specs.Prelude.{◌≡◌, true, ◌&&◌, ◌+◌, ◌*◌, ◌≤◌, length, eqb};
ghost use Rattle.octets.specs.Sizes.{page_size, numbers_each, last_incarnation};
ghost use Rattle.page.specs.Page.{unused, only, runs, count, goes_with, reserving};

use octets::{LAST_INCARNATION, NUMBERS_EACH, PAGE_SIZE};

// The octet of a page that reserves numbers, and the one that does not yet.
const USED: u8 = 0;

pub const UNUSED: u8 = 255;

// So many octets are scanned at once where there are as many.
const PART: usize = 512;

// Whether all of s is FF: then every octet has every bit. The loop has no branch, so that it takes many octets at once.
// A loop of its own beside `octets::is_clear`: one `fold` for both takes more instructions a call, measured.
fn is_unused(s: &[u8]) -> bool
    ensures { result ≡ only unused s.now }
{
    let mut bits = UNUSED;
    for x in s {
        bits &= *x;
    }
    bits == UNUSED
}

// The same of a long s, part by part: a scan of a fixed length takes the machine fewer instructions an octet.
fn are_unused(s: &[u8]) -> bool
    ensures { result ≡ only unused s.now }
{
    let (parts, rest) = s.as_chunks::<PART>();
    parts.iter().fold(true, |all, part| all & is_unused(part)) & is_unused(rest)
}

// Whether so many octets of a page are 00, and all others FF.
fn is_page(used: usize, page: &[u8]) -> bool
    requires { (page_size ≤ length page.now) × (used ≤ page_size) }
    ensures { result ≡ (runs page.now && eqb (count page.now) used) }
{
    octets::is_clear(&page[..used]) & are_unused(&page[used..PAGE_SIZE])
}

// The count of 00 in a page that is a run of 00 followed only by FF, by halves: an octet before its end is 00, and one after it is not.
pub fn count_used(page: &[u8]) -> usize
    requires { page_size ≤ length page.now }
    ensures { (result ≤ page_size) × (runs page.now ≡ true → result ≡ count page.now) }
{
    page[..PAGE_SIZE].partition_point(|x| *x == USED)
}

// Question 15 of a restart: is the page a run of 00 followed only by FF?
pub fn is_run(page: &[u8]) -> bool
    requires { page_size ≤ length page.now }
    ensures { result ≡ runs page.now }
{
    is_page(count_used(page), page)
}

// Question 15 of a call, beside a record with this L: is the page a run of 00 followed only by FF, and is its count of 00 L/16 rounded up?
#[tactic(auto, using(crate::proofs::Scan::goes_not))]
pub fn goes_with(local: u32, page: &[u8]) -> bool
    requires { page_size ≤ length page.now }
    ensures { result ≡ goes_with local page.now }
{
    if local > LAST_INCARNATION {
        return false;
    }
    is_page(((local + 15) / NUMBERS_EACH) as usize, page)
}

// The one store of a call that leaves the number local: where no octet of the page reserves it yet, the next one is set to 00. Nothing else is
// stored here, and every other store of a call comes after it.
pub fn reserve(local: u32, page: &mut [u8])
    requires { ((page_size ≤ length page.old) × (runs page.old ≡ true)) × ((local ≤ last_incarnation) × (local ≤ numbers_each * count page.old + numbers_each)) }
    ensures { (page.new ≡ reserving local page.old) × (local ≤ numbers_each * count page.new) }
{
    if local == 0 {
        return;
    }
    let at = ((local - 1) / NUMBERS_EACH) as usize;
    if page[at] == USED {
        return;
    }
    page[at] = USED;
}
