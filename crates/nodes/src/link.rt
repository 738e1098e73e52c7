use wire::Span;

pub mod kind;

// What follows the name of a link: where its target is.
#[derive(Clone, Copy)]
pub struct LinkNode {
    pub target: Span,
}
