//! The log that all clients of a test have.

use assise_lease_table::views::Views;
use assise_private_log::log::Log;
use assise_private_log::log_view::LogView;

/// One log, lent for each client.
#[derive(Drop)]
pub(crate) struct OneLog {
    pub(crate) log: Log,
}

impl Views for OneLog {
    ghost use Rattle.std.specs.Prelude.{Some};

    ghost view_of = { λ l _. Some l.log };

    fn view(&self, client: u32) -> Option<&LogView> {
        let _ = client;
        Some(self.log.view())
    }
}
