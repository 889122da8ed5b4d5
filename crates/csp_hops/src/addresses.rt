//! The next hops that the tables of a scene name.

ghost use Rattle.csp_hops.specs.Hops.{LeadByAddresses, LeadsByAddresses};

use csp_route::Table;
use csp_scene::Scene;

/// Each row of a table names the address of a next hop, or none.
#[tactic(auto, using(crate::proofs::Tables::rows_lead))]
fn hold_routes(table: &Table)
    ensures { LeadsByAddresses table.now }
{
    for row in table.rows() {
        if let Some(via) = row.via {
            // Read for the checker alone, which then knows that it is an address.
            let _number = via.get();
        }
    }
}

/// So it is with the table of each node of a scene, since a row's next hop is an address by its type. It changes nothing.
pub fn hold_addresses(scene: &Scene)
    ensures { LeadByAddresses scene.now }
{
    for node in scene.nodes.iter() {
        hold_routes(&node.routes);
    }
}
