// What can become of a walk that has heard from its lowest pending range.
ghost use Rattle.std.specs.Prelude.{◌≡◌, ℕ, List, Some};
ghost use Rattle.std.specs.Option.{option_map};
ghost use Rattle.records.specs.Rows.{row_ranks};
ghost use Rattle.walk_law.specs.Listing.{is_new};
ghost use Rattle.walk_law.specs.Run.{range_ranks, probe_ranks};
ghost use Rattle.walk_law.specs.Walk as law;
ghost use Rattle.discovery.specs.Books.{rows_of, places_of, BookAfter};
ghost use Rattle.discovery.specs.Courses.{course_ranks, LeadsAs};
ghost use Rattle.discovery.specs.Walks.{hinted};

use crate::book::Book;
use keys::family::Family;
use keys::order::is_below;
use keys::range::{Range, split};
use lines::answers::ProbeAnswer;
use walk_law::phase::Phase;

#[derive(Clone, Copy)]
pub(crate) enum Course<K> {
    // The range is dropped. The walk has ended if it was the last.
    Drop,
    // The range is probed again.
    Probe,
    // The hush of a key is next.
    Hush(K),
    // Both halves are pending in the place of the range.
    Split(Range<K>, Range<K>),
    // The walk has ended.
    End(Phase),
}

// Whether a range is of one key.
fn is_one<K: Family>(range: Range<K>) -> bool
    ensures { result ≡ law.is_one (range_ranks K.Family.rank range) }
{
    !is_below(range.lo, range.hi)
}

// Whether a key is in a range.
fn is_within<K: Family>(key: K, range: Range<K>) -> bool
    ensures { result ≡ law.in_range (K.Family.rank key) (range_ranks K.Family.rank range) }
{
    !is_below(key, range.lo) && !is_below(range.hi, key)
}

// A key that was read is only a hint, since replies that overlap can read as a key that is not fitted. It is none if it is
// outside the range or listed already.
fn hint<K: Family>(book: &Book<'_, K>, range: Range<K>, reply: ProbeAnswer<K>) -> Option<K>
    ensures { option_map K.Family.rank result ≡ hinted (range_ranks K.Family.rank range) (row_ranks K.Family.rank (rows_of book.now)) (probe_ranks K.Family.rank reply) }
{
    // An enum of three cases, and no Option that `?` takes.
    let ProbeAnswer::Clear(key) = reply else {
        return None;
    };
    (is_within(key, range) && !book.is_listed(key)).then_some(key)
}

// The reply to a probe of the range: if it was heard from, its one key is hushed, or the key that was read there, or it is
// split.
pub(crate) fn after_probe<K: Family>(
    book: &Book<'_, K>,
    range: Range<K>,
    reply: ProbeAnswer<K>,
) -> Course<K>
    ensures { LeadsAs (λ r rs. law.after_probe r rs (probe_ranks K.Family.rank reply)) (range_ranks K.Family.rank range) (row_ranks K.Family.rank (rows_of book.now)) (row_ranks K.Family.rank (rows_of book.now)) (course_ranks K.Family.rank result) }
{
    // By its variant, since keys of any family cannot be compared by `==`.
    if matches!(reply, ProbeAnswer::Silent) {
        return Course::Drop;
    }
    match (split(range), hint(book, range, reply)) {
        (None, _) => Course::Hush(range.lo),
        (Some(_), Some(key)) => Course::Hush(key),
        (Some((lower, upper)), None) => Course::Split(lower, upper),
    }
}

// Nobody replied to the hush of a key of the range: that is split, unless it is of one key.
pub(crate) fn after_no<K: Family>(range: Range<K>) -> Course<K>
    ensures { (listed : List ℕ) → LeadsAs law.after_no (range_ranks K.Family.rank range) listed listed (course_ranks K.Family.rank result) }
{
    split(range).map_or(
        Course::End(Phase::Contradicted),
        |(lower, upper)| Course::Split(lower, upper),
    )
}

// The key of the range that was hushed replied: it is listed.
pub(crate) fn after_yes<K: Family>(book: &mut Book<'_, K>, range: Range<K>, key: K) -> Course<K>
    ensures walk { LeadsAs (law.after_yes (places_of book.old) (K.Family.rank key)) (range_ranks K.Family.rank range) (row_ranks K.Family.rank (rows_of book.old)) (row_ranks K.Family.rank (rows_of book.new)) (course_ranks K.Family.rank result) }
    ensures book { BookAfter K.Family.rank (Some key) (is_new (places_of book.old) (K.Family.rank key) (row_ranks K.Family.rank (rows_of book.old))) book.old book.new }
{
    if book.is_listed(key) {
        return Course::End(Phase::Contradicted);
    }
    if !book.list(key) {
        return Course::End(Phase::Full);
    }
    if is_one(range) {
        Course::Drop
    } else {
        Course::Probe
    }
}
