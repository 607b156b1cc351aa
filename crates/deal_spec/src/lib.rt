//! The deal of a shop and a customer over one device, as a machine of its own, and its six promises. There is no code
//! here. Which step of it a step of a run is, and that every run is a deal, deal_laws and deal_runs say.
#![tactic(auto)]
