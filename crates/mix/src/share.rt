// A profile's part of a mix.
#[derive(Clone, Copy)]
pub struct Share {
    pub profile: u32,
    pub percent: u8,
}
