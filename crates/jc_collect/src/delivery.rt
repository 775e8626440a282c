//! How an upload comes.

/// One upload, header and body: a stream of its bytes, or a space that has them.
#[derive(Drop)]
pub enum Delivery<R, B> {
    Stream(R),
    Space(B),
}
