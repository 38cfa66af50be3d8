// What a walk asks, and what it hears. Each is of one kind or the other, with a value in both: enums of their own.
use keys::range::Range;
use lines::answers::ProbeAnswer;

#[derive(Clone, Copy)]
pub enum Question<K> {
    // Who is awake in this range?
    Probe(Range<K>),
    // Are you there? Then take no more part.
    Hush(K),
}

#[derive(Clone, Copy)]
pub enum Answer<K> {
    Probe(ProbeAnswer<K>),
    // Whether the key replied.
    Hush(bool),
}
