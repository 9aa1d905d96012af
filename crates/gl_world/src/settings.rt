//! With what a service of a schedule begins.

use gl_requests::ServiceState;

/// The settings of a service. All its keys come from one seed.
#[derive(Clone, Copy, Debug)]
pub struct Settings {
    /// How many nodes start, from 1.
    pub starting: u8,
    /// How many nodes join later; their numbers follow those of the starting nodes.
    pub joiners: u8,
    /// How many members there are, from 1.
    pub members: u8,
    /// In which the service begins: Opening or Open.
    pub state: ServiceState,
    pub seed: [u8; 32],
}
