//! An end of a link of a run.

ghost use Rattle.std.specs.Prelude.{◌≡◌, Some, slice_get};
ghost use Rattle.link_queue.specs.Ends.{put_name, take_name};
ghost use Rattle.wired_nodes.specs.Tables.{IsEndAt};

use crate::wiring::Wiring;
use link_queue::{PutSide, TakeSide};
use std::marker::PhantomData;

/// The end that puts, of the link out of a vertex (from 1) by a port (from 0), with the index of the link in `Links`.
pub struct WiredPut<J: Wiring, T> {
    pub vertex: u32,
    pub port: u32,
    pub index: u32,
    pub end: PutSide<T>,
    of: PhantomData<J>,
    pub ghost place: { IsEndAt J.net J.tables vertex port end.pass.table_id (put_name end) },
    pub ghost link: { slice_get J.links index ≡ Some end.pass.table_id },
}

/// The end that takes, of the link out of a vertex (from 1) by a port (from 0), with the index of the link in `Links`.
pub struct WiredTake<J: Wiring, T> {
    pub vertex: u32,
    pub port: u32,
    pub index: u32,
    pub end: TakeSide<T>,
    of: PhantomData<J>,
    pub ghost place: { IsEndAt J.net J.tables vertex port end.pass.table_id (take_name end) },
    pub ghost link: { slice_get J.links index ≡ Some end.pass.table_id },
}

impl<J: Wiring, T: Drop> Drop for WiredPut<J, T> {
    fn drop(self) {
        let WiredPut {
            vertex: _,
            port: _,
            index: _,
            end: _,
            of: _,
        } = self;
    }
}

impl<J: Wiring, T> WiredPut<J, T> {
    /// An end with the place and the index of its link.
    pub fn new(vertex: u32, port: u32, index: u32, end: PutSide<T>) -> WiredPut<J, T>
        requires place { IsEndAt J.net J.tables vertex port end.pass.table_id (put_name end) }
        requires link { slice_get J.links index ≡ Some end.pass.table_id }
        ensures place { (result.vertex ≡ vertex) × (result.port ≡ port) }
        ensures end { result.end ≡ end }
    {
        WiredPut {
            vertex,
            port,
            index,
            end,
            of: PhantomData,
        }
    }

    // The end alone.
    pub(crate) fn into_end(self) -> PutSide<T>
        ensures end { result ≡ self.end }
    {
        let WiredPut {
            vertex: _,
            port: _,
            index: _,
            end,
            of: _,
        } = self;
        end
    }
}

impl<J: Wiring, T: Drop> Drop for WiredTake<J, T> {
    fn drop(self) {
        let WiredTake {
            vertex: _,
            port: _,
            index: _,
            end: _,
            of: _,
        } = self;
    }
}

impl<J: Wiring, T> WiredTake<J, T> {
    /// An end with the place and the index of its link.
    pub fn new(vertex: u32, port: u32, index: u32, end: TakeSide<T>) -> WiredTake<J, T>
        requires place { IsEndAt J.net J.tables vertex port end.pass.table_id (take_name end) }
        requires link { slice_get J.links index ≡ Some end.pass.table_id }
        ensures place { (result.vertex ≡ vertex) × (result.port ≡ port) }
        ensures end { result.end ≡ end }
    {
        WiredTake {
            vertex,
            port,
            index,
            end,
            of: PhantomData,
        }
    }

    // The end alone.
    pub(crate) fn into_end(self) -> TakeSide<T>
        ensures end { result ≡ self.end }
    {
        let WiredTake {
            vertex: _,
            port: _,
            index: _,
            end,
            of: _,
        } = self;
        end
    }
}
