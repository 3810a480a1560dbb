use cc_base::name::Name;

/// How the free positions of a context are written: the first ones by these names, and the local ones behind them, which
/// stand for so many binders, by their numbers.
#[derive(Drop)]
pub struct Names {
    pub names: Vec<Name>,
    pub locals: u32,
}
