//! The choice whether a server reports what happens, and in which form.
ghost use Rattle.std.specs.Prelude.{Option};
ghost use Rattle.bw_operators.specs.declared.log_choice.LogForm.{LogForm as Form};

/// In which form what happens is reported.
#[derive(Clone, Copy, Debug, PartialEq, Eq)]
pub enum LogForm {
    /// In lines of words, each after its time.
    Lines,
    /// In lines of JSON, each an object that has its time.
    Json,
}

/// A choice whether what happens at a server is reported, and in which form.
pub trait EventLog {
    /// After a call for this choice it may be in the second state.
    ghost chooses: { Self → Option Form → Self → Type 0 };

    /// Chooses whether what happens from now on is reported.
    ///
    /// # Not specified
    /// Anything beyond what each implementation says of itself.
    fn log_events(&mut self, form: Option<LogForm>)
        ensures { chooses self.old form self.new };
}
