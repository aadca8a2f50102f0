// The covers of one layer's segments in a part of a row that has other layers too: what the opening of its row sums.
ghost use Rattle.std.specs.Prelude.{◌≡◌, true, replicate};
ghost use Rattle.pixel_segment.specs.Field.{gpu};
ghost use Rattle.cover_statements.specs.Carry.{is_light, carry_of};
ghost use Rattle.cover_statements.specs.Cover.{no_cover};
ghost use Rattle.cover_statements.specs.InnerLoad.{loads_of};
ghost use Rattle.layer_row_gpu.specs.InnerCovers.{cover_within, layer_within};

use cover::carry;
use cover_gpu::GpuCover;
use pixel_segment_gpu::GpuSegment;

// The cover of a segment of the layer; 0 for one of another.
fn cover_within(segment: GpuSegment, layer_id: u32) -> i8
    ensures { result ≡ cover_within layer_id segment.0 }
{
    if segment.layer_id() == layer_id {
        segment.cover()
    } else {
        0
    }
}

// The absolute covers of the layer in each pixel row.
fn loads(part: &[u64], layer_id: u32) -> [u16; 4]
    ensures { result ≡ loads_of gpu 4 (replicate 4 0) (layer_within layer_id part.now) }
{
    let mut loads = [0u16; 4];
    for word in part {
        let segment = GpuSegment(*word);
        let y = segment.local_y() as usize;
        loads[y] = carry::raised(loads[y], cover_within(segment, layer_id));
    }
    loads
}

// Number 9: whether it applies at no pixel row.
pub fn is_light(part: &[u64], layer_id: u32) -> bool
    ensures { result ≡ is_light gpu 4 (no_cover 4) (layer_within layer_id part.now) }
{
    cover_gpu::carry::are_light(loads(part, layer_id))
}

// The sums of a layer that number 9 does not refuse.
pub fn sum(part: &[u64], layer_id: u32) -> GpuCover
    requires { is_light gpu 4 (no_cover 4) (layer_within layer_id part.now) ≡ true }
    ensures { result.covers ≡ carry_of gpu 4 (no_cover 4) (layer_within layer_id part.now) }
{
    let mut covers = [0i8; 4];
    for word in part {
        let segment = GpuSegment(*word);
        let y = segment.local_y() as usize;
        covers[y] += cover_within(segment, layer_id);
    }
    GpuCover { covers }
}
