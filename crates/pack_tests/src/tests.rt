//! Sorted records and entries, and packs.

mod assembly;
mod building;
mod entries;
mod joined;
mod packs;
mod scratch;
mod small_pack;
mod sorting;
