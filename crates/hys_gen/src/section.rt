ghost use Rattle.std.specs.Prelude.{◌≡◌};
ghost use Rattle.hys_gen.specs.Tanks.{interface, implementation, name_text};

/// The sections of the source.
#[derive(Clone, Copy)]
pub enum Section {
    State,
    Input,
    Aux,
    Ad,
    Da,
    Continuous,
    Must,
}

impl Section {
    /// The sections of the INTERFACE, in their order.
    #[tactic(auto, unfolding(crate::specs::Tanks::interface))]
    pub fn interface() -> &'static [Section]
        ensures { result.now ≡ interface }
    {
        &[Section::State, Section::Input]
    }

    /// The sections of the IMPLEMENTATION, in their order.
    #[tactic(auto, unfolding(crate::specs::Tanks::implementation))]
    pub fn implementation() -> &'static [Section]
        ensures { result.now ≡ implementation }
    {
        &[
            Section::Aux,
            Section::Ad,
            Section::Da,
            Section::Continuous,
            Section::Must,
        ]
    }

    /// The keyword that the section begins with.
    #[tactic(auto, unfolding(crate::specs::Tanks::name_text))]
    pub fn name(self) -> &'static str
        ensures { result.now ≡ name_text self }
    {
        match self {
            Section::State => "STATE",
            Section::Input => "INPUT",
            Section::Aux => "AUX",
            Section::Ad => "AD",
            Section::Da => "DA",
            Section::Continuous => "CONTINUOUS",
            Section::Must => "MUST",
        }
    }
}
