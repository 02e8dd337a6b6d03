// Rings for C: the cells around a cell, found in a workspace that C lends.
ghost use Rattle.std.specs.Prelude.{◌≡◌, true, false};
ghost use Rattle.ring.specs.Ring.{ring_in};
ghost use Rattle.face.specs.Rings.{ring_told, of_ring};
ghost use Rattle.known.specs.Workspace.{in_rooms};

use face::CountTold;

// The cells within k steps of a centre.
pub fn tishkolan_k_ring(
    center: &[u8],
    k: u64,
    known: usize,
    waiting: usize,
    workspace: &mut [u8],
    output: &mut [u8],
) -> CountTold
    ensures { ring_told result workspace.new output.new
        ≡ of_ring (ring_in true center.now k (in_rooms known waiting) workspace.old output.old) }
{
    face::layers::of_count(
        0,
        ring::k_ring(center, k, known, waiting, workspace, output),
    )
}

// The cells at exactly k steps.
pub fn tishkolan_k_shell(
    center: &[u8],
    k: u64,
    known: usize,
    waiting: usize,
    workspace: &mut [u8],
    output: &mut [u8],
) -> CountTold
    ensures { ring_told result workspace.new output.new
        ≡ of_ring (ring_in false center.now k (in_rooms known waiting) workspace.old output.old) }
{
    face::layers::of_count(
        0,
        ring::k_shell(center, k, known, waiting, workspace, output),
    )
}
