// The names that the lobby must have.
ghost use Rattle.std.specs.Prelude.{◌≡◌};
ghost use Rattle.world_build.specs.Names.{core_text};

/// A slot that the lobby must have, with a core object.
#[derive(Clone, Copy, Debug, PartialEq, Eq)]
pub enum CoreName {
    Nil,
    True,
    False,
    IntegerTraits,
    StringTraits,
    VectorTraits,
    BlockTraits,
}

// The core names in their order.
pub(crate) const CORE_NAMES: [CoreName; 7] = [
    CoreName::Nil,
    CoreName::True,
    CoreName::False,
    CoreName::IntegerTraits,
    CoreName::StringTraits,
    CoreName::VectorTraits,
    CoreName::BlockTraits,
];

impl CoreName {
    /// The name's text.
    pub fn text(self) -> &'static str
        ensures { result.now ≡ core_text self }
    {
        match self {
            CoreName::Nil => "nil",
            CoreName::True => "true",
            CoreName::False => "false",
            CoreName::IntegerTraits => "integerTraits",
            CoreName::StringTraits => "stringTraits",
            CoreName::VectorTraits => "vectorTraits",
            CoreName::BlockTraits => "blockTraits",
        }
    }
}
