// Each call on a transaction says for itself that no claim changes: that is no fact of one value, which a type could keep.
mod back;
mod begin;
mod claim;
mod drain;
mod drain_all;
mod hand_in;
mod load;
mod new;
mod numbered;
mod seal;
mod store;
