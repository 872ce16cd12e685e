// How certain an alarm is.
ghost use Rattle.std.specs.Prelude.{◌≡◌};
ghost use Rattle.log_order.specs.Certainty.{leaves_doubt};

/// How certain an alarm of a log is.
#[derive(Clone, Copy)]
pub enum Certainty {
    /// It stands for an event.
    Certain,
    /// It is perhaps false, and then stands for no event.
    Doubtful,
}

impl Certainty {
    /// Whether the alarm is perhaps false.
    pub fn is_doubtful(self) -> bool
        ensures { result ≡ leaves_doubt self }
    {
        match self {
            Certainty::Certain => false,
            Certainty::Doubtful => true,
        }
    }
}
