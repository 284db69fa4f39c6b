//! When the calls of a worker's store give up.
ghost use Rattle.std.specs.Prelude.{◌≡◌};

use node_context::Connections;
use node_files::Ends;
use node_keeper::FolderKeeper;
use std::sync::Wait;
use sync_names::SafeName;

/// When the calls of a store give up.
#[derive(Clone, Copy, PartialEq, Eq)]
pub enum GivesUp {
    /// Once the node stops: calls that read, or prepare what is to be put in place. So a scan or a pull that is under way ends soon. What puts
    /// files in place, moves or removes them is still done.
    AtStop,
    /// The same once the run ends, but not where another node follows the one that stops.
    AtQuit,
    /// Never.
    Never,
}

/// When the calls of a worker's store give up, by whether the node stops, and whether they put something in place, by whether its plan is on the disk.
#[derive(Drop)]
pub struct WorkerEnds<'a, R> {
    rt: &'a R,
    connections: &'a Connections,
    gives_up: GivesUp,
    keeper: FolderKeeper<'a, R>,
}

impl<'a, R> WorkerEnds<'a, R> {
    /// So, of a node with these connections, and a folder with this keeper.
    pub fn new(
        rt: &'a R,
        connections: &'a Connections,
        gives_up: GivesUp,
        keeper: FolderKeeper<'a, R>,
    ) -> WorkerEnds<'a, R>
        ensures { result.gives_up ≡ gives_up }
    {
        WorkerEnds {
            rt,
            connections,
            gives_up,
            keeper,
        }
    }
}

impl<R: Wait> Ends for WorkerEnds<'_, R> {
    ghost use Rattle.std.specs.Prelude.{◌≢◌, ⊤};
    ghost use Rattle.node_folder.specs.declared.ends.GivesUp.TheVariants.{Never};

    ghost may_end = { λ it. it.gives_up ≢ Never };

    ghost may_hold = { λ _. ⊤ };

    fn is_over(&self) -> bool {
        match self.gives_up {
            GivesUp::AtStop => self.connections.is_stopping(self.rt),
            GivesUp::AtQuit => self.connections.is_quitting(self.rt),
            GivesUp::Never => false,
        }
    }

    fn is_ready(&self, name: &SafeName) -> bool {
        self.keeper.is_ready(name)
    }
}
