//! The logs that clients' revokers look at.

use assise_private_log::log_view::LogView;

/// The logs of clients, as whoever keeps them lends them.
pub trait Views {
    ghost use Rattle.std.specs.Prelude.{◌≡◌, ℕ, Option};
    ghost use Rattle.std.specs.Option.{option_copied};
    ghost use Rattle.assise_private_log.specs.NumberedLog.{NumberedLog};

    ghost view_of: { Self → ℕ → Option NumberedLog };

    /// The log of a client, if it is lent.
    fn view(&self, client: u32) -> Option<&LogView>
        ensures { option_copied result ≡ view_of self.now client };
}
