ghost use Rattle.std.specs.Prelude.{◌≡◌};
ghost use Rattle.surjection_law.specs.Names.{arity, caesura_count};
ghost use Rattle.cut_tests.specs.Edges.{edge_ascending, edge_long, edge_small, edge_value};

use fp_field::Fp;
use interval_cut::{Cuts, LiveCuts, Values, evaluate, evaluate_live};
use std::alloc::Global;
use std::test::Fail;
use surjection::surj::Surj;

// The multiples of the length of an edge.
#[derive(Drop)]
struct Lengths {
    times: u8,
}

impl Values<3> for Lengths {
    ghost degree_of = { λ a. 1 };

    ghost value_of = { λ a. edge_value a.times };

    ghost small = { λ a. edge_small a.times };

    ghost ascending = { λ a. edge_ascending a.times };

    ghost long = { λ a. edge_long a.times };

    fn degree(&self) -> u32 {
        1
    }

    fn at(&self, face: &[u32]) -> Fp<3> {
        let length = if face.len() == 2 {
            face[1].saturating_sub(face[0])
        } else {
            0
        };
        Fp::new(self.times as u64 * length as u64)
    }
}

// The value on an edge, by all cuts and by the live ones, of a surjection of arity 2 with one caesura.
fn values_on_an_edge(alloc: Global, values: &[u8], mask: u32) -> Result<(u32, u32), Fail>
    requires two { arity values.now ≡ 2 }
    requires one { caesura_count values.now ≡ 1 }
{
    let arc = Surj::new(alloc, values)?;
    let mut cuts = Cuts::new(alloc, &arc, 1)?;
    let mut live = LiveCuts::new(alloc, &arc, 1)?;
    let once = Lengths { times: 1 };
    let twice = Lengths { times: 2 };
    let value = evaluate(&mut cuts, &once, &twice, mask, &[5, 6]);
    let live_value = evaluate_live(&mut live, &once, &twice, mask, &[5, 6]);
    Ok((value.value(), live_value.value()))
}

#[test]
fn an_arc_has_values_on_an_edge(rt: HostRuntime) -> Result<(), Fail> {
    for (mask, want) in [(0, 1), (2, 2), (3, 1)] {
        let found = values_on_an_edge(rt.alloc(), &[1, 2, 1], mask)?;
        assert_eq!(rt; found, (want, want));
    }
    Ok(())
}
