/// `num` over `den`. Ratios are compared by their products, so no one is ever divided out.
#[derive(Clone, Copy, Debug, PartialEq, Eq)]
pub struct Ratio {
    pub num: u32,
    pub den: u32,
}
