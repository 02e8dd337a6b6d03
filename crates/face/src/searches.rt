// What C is told of a search: the route, or the refusal with what it carries.
ghost use Rattle.std.specs.Prelude.{◌≡◌};
ghost use Rattle.face.specs.Searches.{route_told, no_route, of_search};

use crate::SearchTold;
use refusal::Refusal;
use search::Route;

fn route_told(route: Route) -> SearchTold
    ensures { result ≡ route_told route }
{
    SearchTold {
        refusal: crate::answered(),
        cells: route.cells as u64,
        cost: route.cost,
        expansions: route.expansions,
        limit: 0,
        start_high: 0,
        start_low: 0,
        goal_high: 0,
        goal_low: 0,
    }
}

fn no_route(r: Refusal) -> SearchTold
    ensures { result ≡ no_route r }
{
    let row = refusal::row_of(r);
    let spent = row.spent;
    let start = row.ends.start;
    let goal = row.ends.goal;
    SearchTold {
        refusal: r.into(),
        cells: 0,
        cost: 0,
        expansions: spent.expansions,
        limit: spent.limit,
        start_high: start.high,
        start_low: start.low,
        goal_high: goal.high,
        goal_low: goal.low,
    }
}

impl From<Result<Route, Refusal>> for SearchTold {
    ghost from_gives = { λ a told. told ≡ of_search a };

    fn from(a: Result<Route, Refusal>) -> SearchTold {
        match a {
            Ok(route) => route_told(route),
            Err(r) => no_route(r),
        }
    }
}
