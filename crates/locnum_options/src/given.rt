//! What a command line gives.

ghost use Rattle.std.specs.Prelude.{◌≡◌};
ghost use Rattle.locnum_options.specs.Given.{flag_of, look_up};

/// The variables of the environment that name its locale, as far as they are set (this project's
/// own).
#[derive(Clone, Copy, Debug)]
pub struct Environment<'a> {
    /// `LC_ALL`, which is taken before the others.
    pub all: Option<&'a str>,
    /// `LC_NUMERIC`, which is taken before `LANG`.
    pub numeric: Option<&'a str>,
    /// `LANG`.
    pub language: Option<&'a str>,
}

/// The options that a command line gives: each with its name and its text, which is empty where the
/// option has none (this project's own).
#[derive(Clone, Copy, Debug)]
pub struct Given<'a> {
    /// The names and the texts, in any order; of several of one name the first counts.
    pub options: &'a [(&'a str, &'a str)],
    /// What the environment says.
    pub environment: Environment<'a>,
}

impl<'a> Given<'a> {
    /// The text of the option of this name, if it is given.
    #[tactic(auto, unfolding(crate::specs::Given::look_up, crate::specs::Given::found_among))]
    pub fn text(&self, name: &str) -> Option<&'a str>
        ensures { result ≡ look_up self.now name.now }
    {
        for (option, text) in self.options {
            if *option == name {
                return Some(*text);
            }
        }
        None
    }

    /// Whether the option of this name is given.
    pub fn flag(&self, name: &str) -> bool
        ensures { result ≡ flag_of self.now name.now }
    {
        self.text(name).is_some()
    }
}
