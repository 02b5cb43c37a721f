// The group of a profile.
#[derive(Clone, Copy, PartialEq, Eq, Debug)]
pub enum Group {
    // a standard profile
    S,
    // a temperature-dependent profile
    T,
}
