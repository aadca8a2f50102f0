// The doubled areas of a part that number 9 does not refuse, by one who knows it: what `area` gives, without loads.
ghost use Rattle.std.specs.Prelude.{◌≡◌, true};
ghost use Rattle.pixel_segment.specs.Field.{cpu};
ghost use Rattle.cover_statements.specs.Area.{areas_of};
ghost use Rattle.cover_statements.specs.Carry.{is_light};
ghost use Rattle.cover_statements.specs.Cover.{cover_at};
ghost use Rattle.cover_statements.specs.InnerCell.{no_cells, Accumulated};

use crate::area;
use cover::Cover;
use pixel_segment::PixelSegment;

// The double areas and the covers of each cell, summed. The cover that comes in is there to say that no sum outgrows
// its type.
fn add_segments(part: &[u64], incoming: Cover, areas: &mut [i16; 256], covers: &mut [i8; 256])
    requires { (is_light cpu 16 incoming.covers part.now ≡ true) × (areas.old ≡ no_cells 16)
        × (covers.old ≡ no_cells 16) }
    ensures { Accumulated cpu 16 part.now areas.new covers.new }
{
    for word in part {
        let segment = PixelSegment(*word);
        let cover = area::cover_of(segment);
        let k = area::cell(segment);
        areas[k] += area::area_of(segment, cover);
        covers[k] += cover as i8;
    }
}

// The doubled areas of a part, from an incoming cover.
pub fn sum_areas(part: &[u64], cover: Cover, areas: &mut [i16; 256])
    requires { (is_light cpu 16 cover.covers part.now ≡ true) × (areas.old ≡ no_cells 16) }
    ensures { areas.new ≡ areas_of cpu 16 (cover_at cover.covers) part.now }
{
    let incoming = cover.covers;
    let mut covers = [0i8; 256];
    add_segments(part, cover, areas, &mut covers);
    area::sum_columns(areas, &covers, incoming);
}
