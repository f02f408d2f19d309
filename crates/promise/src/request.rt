//! What can be asked of a store: its calls, and restarts.
use calls::call::Call;
use device::comeback::Comeback;

/// How the devices of a store come back at a restart: what simulated ones take for their unsettled pieces, and after how many
/// acts they go dark.
#[derive(Drop)]
pub struct Return {
    pub nvm: Comeback,
    pub disk: Comeback,
    pub nvm_acts: u64,
    pub disk_acts: u64,
}

/// A call of a store, or a restart of its devices.
#[derive(Drop)]
pub enum Request<R> {
    Call(Call<R>),
    Restart(Return),
}
