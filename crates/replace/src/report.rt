// What `set_token` and its preview tell.

// How many bytes, parts and symbols there are then.
#[derive(Clone, Copy)]
pub struct Sizes {
    pub bytes: usize,
    // The root's two among them.
    pub parts: usize,
    pub symbols: usize,
}
