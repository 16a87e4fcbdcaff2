/// The numbers of the closures that a domain's rules ask, in order.
#[derive(Clone, Copy, Drop)]
pub struct ClosureNumbers {
    pub tests: &'static [u16],
    pub keys: &'static [u16],
    pub weighers: &'static [u16],
}
