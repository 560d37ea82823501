//! The order of a name index: by the folded name that stands at each start, and then by start (docs/FORMAT.md, "Name index").
#![tactic(auto)]

ghost use Rattle.std.specs.Prelude.{◌≡◌, ◌+◌, ◌≤◌, true, false, length, take};
ghost use Rattle.std.specs.List.Sorted.{IsSortedBy, IsPartitionPoint};
ghost use Rattle.name_order.specs.Order.{name_at, name_cmp, start_cmp, goes_first, named_before};
ghost use Rattle.name_order.specs.Branch.{front_cmp, is_before, is_no_further, begins_at, IsRun, IsBranch};
ghost use Rattle.name_order.specs.Sorted.{in_order};
ghost use Rattle.name_order.specs.Halving.{halved};
ghost use Rattle.name_order.specs.Meaning.{OrderIsTotal, OneOrder};
ghost use Rattle.name_order.specs.Letters.{OrderMeant};

pub mod places;

pub use places::NamePlaces;
use std::cmp::Ordering;

/// The name that an entry at a place tells, or what is there of it: none where the place is past the end.
#[inline(always)]
#[tactic(auto, using(crate::proofs::Order::name_none), unfolding(crate::specs::Order::name_at))]
pub fn name_at(bytes: &[u8], places: NamePlaces, at: usize) -> &[u8]
    ensures { result.now ≡ name_at places bytes.now at }
{
    let length = bytes.len();
    if length < places.name {
        return &bytes[..0];
    }
    if length - places.name < at {
        return &bytes[..0];
    }
    let told = le::u16_at(bytes, at + places.length) as usize;
    let rest = &bytes[at + places.name..];
    &rest[..told.min(rest.len())]
}

// Whether the four bytes from a place on are the same in both, as one number: the compiler reads them at once.
#[inline(always)]
fn same_four(a: &[u8], b: &[u8], at: usize) -> bool
    requires { (at + 4 ≤ length a.now) × (at + 4 ≤ length b.now) }
    ensures { result ≡ true → take at a.now ≡ take at b.now → take (at + 4) a.now ≡ take (at + 4) b.now }
{
    le::u32_at(a, at) == le::u32_at(b, at)
}

// How far two names are known to begin with the same bytes: those of a rig mostly do.
#[inline(always)]
fn alike(a: &[u8], b: &[u8]) -> usize
    ensures within { (result ≤ length a.now) × (result ≤ length b.now) }
    ensures same { take result a.now ≡ take result b.now }
{
    let n = a.len().min(b.len());
    let mut i = 0;
    while 4 <= n - i {
        if !same_four(a, b, i) {
            return i;
        }
        i += 4;
    }
    i
}

/// Which of two names comes first: byte by byte, A to Z equal to a to z.
#[inline(always)]
pub fn compare_names(a: &[u8], b: &[u8]) -> Ordering
    ensures { result ≡ name_cmp a.now b.now }
{
    let n = a.len().min(b.len());
    let mut i = alike(a, b);
    while i < n {
        let x = a[i].to_ascii_lowercase();
        let y = b[i].to_ascii_lowercase();
        if x != y {
            return x.cmp(&y);
        }
        i += 1;
    }
    a.len().cmp(&b.len())
}

/// How a name, cut to a text's length, compares with the text: as the text where the name begins with it, and less or greater where it comes before or behind all that begin so.
#[inline(always)]
fn compare_front(name: &[u8], text: &[u8]) -> Ordering
    ensures { result ≡ front_cmp text.now name.now }
{
    compare_names(&name[..text.len().min(name.len())], text)
}

/// Which of two starts comes first: by the names there, and then by the starts.
#[inline(always)]
#[tactic(auto, unfolding(crate::specs::Order::start_cmp))]
pub fn compare_starts(bytes: &[u8], places: NamePlaces, a: u32, b: u32) -> Ordering
    ensures { result ≡ start_cmp places bytes.now a b }
{
    match compare_names(
        name_at(bytes, places, a as usize),
        name_at(bytes, places, b as usize),
    ) {
        Ordering::Equal => a.cmp(&b),
        other => other,
    }
}

/// Puts starts in order, where they stand.
pub fn sort_starts(bytes: &[u8], places: NamePlaces, starts: &mut [u32])
    ensures { starts.new ≡ in_order (goes_first places bytes.now) starts.old }
{
    starts.sort_unstable_by(|a, b| compare_starts(bytes, places, *a, *b));
}

/// How many of some starts have a name before this one, by halving: of starts in order, all before the answer and none from it on.
pub fn starts_before(bytes: &[u8], places: NamePlaces, starts: &[u32], name: &[u8]) -> usize
    ensures value { result ≡ halved (named_before places bytes.now name.now) starts.now }
    ensures within { result ≤ length starts.now }
    ensures parted { IsSortedBy (goes_first places bytes.now) starts.now → IsPartitionPoint (λ at. named_before places bytes.now name.now at ≡ true) (λ at. named_before places bytes.now name.now at ≡ false) starts.now result }
{
    let mut rest = starts;
    let mut before = 0;
    while !rest.is_empty() {
        let middle = rest.len() / 2;
        let at = rest[middle] as usize;
        if compare_names(name_at(bytes, places, at), name).is_lt() {
            before += middle + 1;
            rest = &rest[middle + 1..];
        } else {
            rest = &rest[..middle];
        }
    }
    before
}

// How many of some starts come before all names that begin with a text.
fn before_branch(bytes: &[u8], places: NamePlaces, starts: &[u32], text: &[u8]) -> usize
    ensures within { result ≤ length starts.now }
    ensures parted { IsSortedBy (goes_first places bytes.now) starts.now → IsPartitionPoint (λ at. is_before places bytes.now text.now at ≡ true) (λ at. is_before places bytes.now text.now at ≡ false) starts.now result }
{
    starts.partition_point(|at| compare_front(name_at(bytes, places, *at as usize), text).is_lt())
}

// How many of some starts come before all names that come behind those which begin with a text.
fn to_branch_end(bytes: &[u8], places: NamePlaces, starts: &[u32], text: &[u8]) -> usize
    ensures within { result ≤ length starts.now }
    ensures parted { IsSortedBy (goes_first places bytes.now) starts.now → IsPartitionPoint (λ at. is_no_further places bytes.now text.now at ≡ true) (λ at. is_no_further places bytes.now text.now at ≡ false) starts.now result }
{
    starts.partition_point(|at| compare_front(name_at(bytes, places, *at as usize), text).is_le())
}

/// Some starts that stand one behind another: of starts in order those at which a name begins with a text, all of them and no other.
pub fn branch_run<'a>(bytes: &[u8], places: NamePlaces, starts: &'a [u32], text: &[u8]) -> &'a [u32]
    ensures among { IsRun starts.now result.now }
    ensures ordered { IsSortedBy (goes_first places bytes.now) starts.now → IsBranch (begins_at places bytes.now text.now) starts.now result.now }
{
    let rest = &starts[before_branch(bytes, places, starts, text)..];
    &rest[..to_branch_end(bytes, places, rest, text)]
}

// The theorems. Each is the contract of a function that does nothing, so that none goes unnoticed if its proof does.

/// Names are ordered, and alike exactly where they are the same; starts are ordered, and no two alike.
pub fn order_is_total()
    ensures { OrderIsTotal }
{}

/// Of two names the one comes first that ends first, or whose letter is the lower, in small letters, where they are not the same; of two starts the one whose name comes first, or, where the names are the same, the lower; and what it is that starts are in order.
pub fn order_meant()
    ensures { OrderMeant }
{}

/// Starts put in order are the same starts, in order, and the only list of which that is so.
pub fn one_order()
    ensures { OneOrder }
{}
