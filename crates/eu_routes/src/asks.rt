//! What requests ask for.
use eu_base::{App, Key};
use eu_model::Command;

/// What a request asks for. The bodies of a registration and of a batch are read elsewhere.
#[derive(Debug, Drop)]
pub enum Route {
    /// An instance of that application is to be registered.
    Register(App),
    /// That command is to be done. It doesn't have the instance of a registration, nor the commands of a batch.
    Do(Command),
    /// The instances of all applications are asked for.
    All,
    /// The instances of that application are asked for.
    OfApp(App),
    /// An instance is asked for.
    One(Key),
    /// The changes since an earlier listing are asked for, which nobody gets.
    Delta,
    /// The commands that a peer tells in the body are to be done (`PeerReplicationResource` in Eureka).
    Batch,
    /// The page that tells how the registry is.
    StatusPage,
}
