//! The devices over store files, as a subcommand leaves them. The caller drops them, so that the contract covers
//! every call on them.
ghost use Rattle.std.specs.Prelude.{◌≡◌};
ghost use Rattle.planner_cli.specs.StoreDevices.{no_devices};

/// The devices over store files that a subcommand opened for writing. Dropping a device closes its file and
/// releases its lock.
#[derive(Drop)]
pub struct StoreDevices<D, N> {
    /// The device over the store's file.
    pub store: Option<D>,
    /// The device over the file that `load` or `upgrade` made.
    pub new_store: Option<N>,
}

impl<D, N> StoreDevices<D, N> {
    /// Returns the value without any device.
    pub(crate) fn none() -> StoreDevices<D, N>
        ensures { result ≡ no_devices }
    {
        StoreDevices {
            store: None,
            new_store: None,
        }
    }
}
