/// An item of a list with its key, which other items may have too.
#[derive(Drop)]
pub struct Keyed<T> {
    pub key: u64,
    pub item: T,
}

/// An item that was taken out of a list, with the place where it stood.
#[derive(Drop)]
pub struct Taken<T> {
    pub place: u64,
    pub item: T,
}
