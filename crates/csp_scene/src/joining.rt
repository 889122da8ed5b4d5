//! What `link` and `route` lines state.

ghost use Rattle.std.specs.Prelude.{◌≡◌, ◌≢◌, ◌<◌, ◌≤◌, ◌||◌, ◌+◌, [], ◌∷◌, false, Some, None, map, IsTrue, OnOk, OnErr, IfOk, IfErr, IfSome, MatchResult, Ok, Err, length, is_some};
ghost use Rattle.std.specs.List.{All, list_any, list_all};
ghost use Rattle.std.specs.Option.{option_map};
ghost use Rattle.csp_route.specs.Routes.{Routes, IsWithin, merged};
ghost use Rattle.csp_route.specs.Text.{parsed, names_of};
ghost use Rattle.csp_text.specs.Names.{is_name};
ghost use Rattle.csp_scene.specs.Links.{links_at, node_at};
ghost use Rattle.csp_scene.specs.Naming.{is_name_taken, node_named, router_named};
ghost use Rattle.csp_scene.specs.Sketch.{with_link};
ghost use Rattle.csp_scene.specs.Arguments.{word_at};
ghost use Rattle.csp_scene.specs.Ranges.{IsMtu};
ghost use Rattle.csp_scene.specs.Joining.{kiss_kind, mtu_of, end_at, new_link, has_app, takes_link, has_twice, is_link_taken, may_add_link, all_named, state_between, state_link, state_hub, kind_of, known_ifaces, with_routes, add_routes, routed, state_route_at, state_route};
ghost use Rattle.csp_scene.specs.Kept.{MayJoin, IsSketch, Fits, FitsShape, Judged};

use crate::arguments::{has_keyword, name_at, setting, text_from, word_at};
use crate::checks::past;
use crate::limits::{BRIDGE_LINKS, DEFAULT_MTU, MAX_HUB_NODES, MAX_LINKS};
use crate::links::LinkSketch;
use crate::naming::{
    IfaceNames, iface_count, iface_names, is_called, is_name_taken, node_named, router_named,
};
use crate::refusal::SceneKind;
use crate::scenario::{SceneLink, SceneNode};
use crate::sketch::{LineError, Sketch};
use crate::table::{Form, Keyword, Part};
use arrayvec::ArrayVec;
use csp_base::Name;
use csp_log::{End, LINK_ENDS, LinkKind};
use csp_route::{RouteKind, Table};
use std::alloc::Global;

/// The places of the nodes that a link or a hub joins.
type Places = ArrayVec<usize, MAX_HUB_NODES>;

/// The kind of a KISS link, by the words of its line.
fn kiss_kind(shape: &[Part]) -> LinkKind
    ensures { result ≡ kiss_kind shape.now }
{
    if has_keyword(Keyword::Header, shape) {
        LinkKind::KissHeader
    } else {
        LinkKind::Kiss
    }
}

/// The kind of a line whose text of routes has this error.
fn kind_of(error: RouteKind) -> SceneKind
    ensures { result ≡ kind_of error }
{
    match error {
        RouteKind::Syntax | RouteKind::Range => SceneKind::Number,
        RouteKind::NoInterface => SceneKind::Unknown,
        RouteKind::Full => SceneKind::Full,
    }
}

/// Whether one of these stands twice.
fn has_twice(places: &[usize]) -> bool
    ensures { result ≡ has_twice places.now }
{
    match places {
        [] => false,
        [place, more @ ..] => more.contains(place) || has_twice(more),
    }
}

/// The places of the nodes, and not bridges, of these names, where each names one.
fn routers_named(nodes: &[SceneNode], names: &[&[u8]]) -> Option<Places>
    requires { length names.now ≤ MAX_HUB_NODES }
    ensures value { option_map (λ places. places.items) result ≡ all_named (map (λ name. router_named name nodes.now) (map (λ name. name.now) names.now)) }
    ensures count { IfSome result (λ places. length places.items ≡ length names.now) }
    ensures there { IfSome result (λ places. All (λ place. place < length nodes.now) places.items) }
{
    let mut places = ArrayVec::new();
    for name in names {
        places.push(router_named(nodes, name)?);
    }
    Some(places)
}

impl Sketch {
    /// The end of a new link at a node.
    fn end_at(&self, place: usize) -> End
        requires place { place < 256 }
        requires few { length self.now.links ≤ MAX_LINKS }
        ensures { result ≡ end_at self.now.links place }
    {
        End {
            node: place as u8,
            iface: iface_count(&self.links, place) as u8,
        }
    }

    /// The ends of a new link at the nodes in these places.
    fn ends_at(&self, places: &[usize]) -> ArrayVec<End, LINK_ENDS>
        requires few { length self.now.links ≤ MAX_LINKS }
        requires count { length places.now ≤ MAX_HUB_NODES }
        requires places { All (λ place. place < 256) places.now }
        ensures { result.items ≡ map (end_at self.now.links) places.now }
    {
        let mut ends = ArrayVec::new();
        for place in places {
            ends.push(self.end_at(*place));
        }
        ends
    }

    /// A new link between the nodes in these places, or a hub.
    fn new_link(
        &self,
        alloc: Global,
        name: Name,
        kind: LinkKind,
        hub: bool,
        mtu: u16,
        places: &[usize],
    ) -> SceneLink
        requires few { length self.now.links ≤ MAX_LINKS }
        requires count { length places.now ≤ MAX_HUB_NODES }
        requires places { All (λ place. place < 256) places.now }
        ensures { result ≡ new_link self.now.links name.bytes kind hub mtu places.now }
    {
        SceneLink {
            name,
            kind,
            hub,
            mtu,
            ends: self.ends_at(places),
            plan: Vec::new(alloc),
        }
    }

    /// Whether a node takes another link.
    fn takes_link(&self, place: usize) -> bool
        requires { place < length self.now.nodes }
        ensures { result ≡ takes_link self.now place }
    {
        self.nodes[place].addr.is_some() || iface_count(&self.links, place) < BRIDGE_LINKS
    }

    /// Whether each of these nodes takes another link.
    fn take_link(&self, places: &[usize]) -> bool
        requires { All (λ place. place < length self.now.nodes) places.now }
        ensures { result ≡ list_all (takes_link self.now) places.now }
    {
        for place in places {
            if !self.takes_link(*place) {
                return false;
            }
        }
        true
    }

    /// Whether one of these nodes has an application of this name.
    fn have_app(&self, name: &Name, places: &[usize]) -> bool
        requires { All (λ place. place < length self.now.nodes) places.now }
        ensures { result ≡ list_any (λ place. has_app name.now.bytes (node_at self.now.nodes place)) places.now }
    {
        for place in places {
            if is_called(&self.nodes[*place].apps, name.as_bytes()) {
                return true;
            }
        }
        false
    }

    /// Whether a name is taken for a link of these nodes.
    fn is_link_taken(&self, name: &Name, places: &[usize]) -> bool
        requires { All (λ place. place < length self.now.nodes) places.now }
        ensures { result ≡ is_link_taken self.now name.now.bytes places.now }
    {
        is_name_taken(&self.nodes, &self.links, name.as_bytes()) || self.have_app(name, places)
    }

    /// Whether a link may join these nodes: Twice where one stands twice or its name is taken, then
    /// Full.
    fn may_add_link(&self, name: &Name, places: &[usize]) -> Result<(), SceneKind>
        requires { All (λ place. place < length self.now.nodes) places.now }
        ensures value { result ≡ may_add_link self.now name.now.bytes places.now }
        ensures apart { OnOk result (has_twice places.now ≡ false) }
        ensures room { OnOk result (length self.now.links < MAX_LINKS) }
    {
        if has_twice(places) || self.is_link_taken(name, places) {
            return Err(SceneKind::Twice);
        }
        if self.links.len() >= MAX_LINKS || !self.take_link(places) {
            return Err(SceneKind::Full);
        }
        Ok(())
    }

    fn push_link(
        &mut self,
        alloc: Global,
        name: Name,
        kind: LinkKind,
        hub: bool,
        mtu: u16,
        places: &[usize],
    ) -> Result<(), LineError>
        requires kept { IsSketch self.old }
        requires name { IsTrue (is_name name.bytes) }
        requires mtu { IsMtu mtu }
        requires ends { MayJoin (length self.old.nodes) kind hub mtu places.now }
        requires apart { has_twice places.now ≡ false }
        requires room { length self.old.links < MAX_LINKS }
        ensures answer { Judged result self.new (Ok (with_link (new_link self.old.links name.bytes kind hub mtu places.now) self.old)) }
        ensures kept { OnOk result (IsSketch self.new) }
    {
        let link = self.new_link(alloc, name, kind, hub, mtu, places);
        let Ok(()) = self.links.push(LinkSketch::new(alloc, link)) else {
            return Err(LineError::NoMemory);
        };
        Ok(())
    }

    /// A link of this name, kind and mtu, or a hub, between the nodes in these places.
    fn state_between(
        &mut self,
        alloc: Global,
        name: Name,
        kind: LinkKind,
        hub: bool,
        mtu: u16,
        places: &[usize],
    ) -> Result<(), LineError>
        requires kept { IsSketch self.old }
        requires name { IsTrue (is_name name.bytes) }
        requires mtu { IsMtu mtu }
        requires ends { MayJoin (length self.old.nodes) kind hub mtu places.now }
        ensures answer { Judged result self.new (state_between self.old name.bytes kind hub mtu (Some places.now)) }
        ensures kept { OnOk result (IsSketch self.new) }
    {
        match self.may_add_link(&name, places) {
            Ok(()) => self.push_link(alloc, name, kind, hub, mtu, places),
            Err(kind) => Err(LineError::Kind(kind)),
        }
    }

    /// A `link` line of this name, kind and mtu.
    fn state_link(
        &mut self,
        alloc: Global,
        name: Name,
        kind: LinkKind,
        mtu: u16,
        args: &[&[u8]],
    ) -> Result<(), LineError>
        requires kept { IsSketch self.old }
        requires name { IsTrue (is_name name.bytes) }
        requires word { name.bytes ≡ word_at (map (λ word. word.now) args.now) 0 }
        requires mtu { IsMtu mtu }
        ensures answer { Judged result self.new (state_link self.old kind mtu (map (λ word. word.now) args.now)) }
        ensures kept { OnOk result (IsSketch self.new) }
    {
        let Some(one) = node_named(&self.nodes, word_at(args, 2)) else {
            return Err(LineError::Kind(SceneKind::Unknown));
        };
        let Some(other) = node_named(&self.nodes, word_at(args, 3)) else {
            return Err(LineError::Kind(SceneKind::Unknown));
        };
        self.state_between(alloc, name, kind, false, mtu, &[one, other])
    }

    /// A `hub` line.
    pub(crate) fn state_hub(&mut self, alloc: Global, args: &[&[u8]]) -> Result<(), LineError>
        requires kept { IsSketch self.old }
        requires fits { Fits Form.Hub (map (λ word. word.now) args.now) }
        requires most { length args.now ≤ MAX_HUB_NODES + 1 }
        ensures answer { Judged result self.new (state_hub self.old (map (λ word. word.now) args.now)) }
        ensures kept { OnOk result (IsSketch self.new) }
    {
        let name = name_at(Form::Hub, args, 0);
        match routers_named(&self.nodes, past(args, 1)) {
            Some(places) => {
                self.state_between(
                    alloc,
                    name,
                    LinkKind::Can,
                    true,
                    DEFAULT_MTU as u16,
                    &places,
                )
            }
            None => Err(LineError::Kind(SceneKind::Unknown)),
        }
    }

    /// A line of a KISS link.
    pub(crate) fn state_kiss_link(
        &mut self,
        alloc: Global,
        shape: &[Part],
        args: &[&[u8]],
    ) -> Result<(), LineError>
        requires kept { IsSketch self.old }
        requires fits { Fits Form.KissLink (map (λ word. word.now) args.now) }
        requires shape { FitsShape Form.KissLink shape.now (map (λ word. word.now) args.now) }
        ensures answer { Judged result self.new (state_link self.old (kiss_kind shape.now) (mtu_of shape.now (map (λ word. word.now) args.now)) (map (λ word. word.now) args.now)) }
        ensures kept { OnOk result (IsSketch self.new) }
    {
        let name = name_at(Form::KissLink, args, 0);
        let mtu = setting(Form::KissLink, Keyword::Mtu, shape, args).unwrap_or(DEFAULT_MTU);
        self.state_link(alloc, name, kiss_kind(shape), mtu as u16, args)
    }

    /// A line of a CAN link.
    pub(crate) fn state_can_link(
        &mut self,
        alloc: Global,
        shape: &[Part],
        args: &[&[u8]],
    ) -> Result<(), LineError>
        requires kept { IsSketch self.old }
        requires fits { Fits Form.CanLink (map (λ word. word.now) args.now) }
        requires shape { FitsShape Form.CanLink shape.now (map (λ word. word.now) args.now) }
        ensures answer { Judged result self.new (state_link self.old LinkKind.Can (mtu_of shape.now (map (λ word. word.now) args.now)) (map (λ word. word.now) args.now)) }
        ensures kept { OnOk result (IsSketch self.new) }
    {
        let name = name_at(Form::CanLink, args, 0);
        let mtu = setting(Form::CanLink, Keyword::Mtu, shape, args).unwrap_or(DEFAULT_MTU);
        self.state_link(alloc, name, LinkKind::Can, mtu as u16, args)
    }

    /// The interfaces that a line may route to.
    fn known_ifaces(&self, place: Option<usize>) -> IfaceNames
        requires { length self.now.links ≤ MAX_LINKS }
        ensures names { names_of result.items ≡ known_ifaces self.now place }
        ensures count { IfSome place (λ place. length result.items ≡ length (links_at place self.now.links)) }
    {
        match place {
            Some(place) => iface_names(&self.links, place),
            None => ArrayVec::new(),
        }
    }

    fn add_routes(&mut self, place: usize, more: &Table) -> Result<(), LineError>
        requires kept { IsSketch self.old }
        requires node { place < length self.old.nodes }
        requires router { (node_at self.old.nodes place).addr ≢ None }
        requires within { IsWithin (length (links_at place self.old.links)) more.now }
        ensures answer { Judged result self.new (add_routes self.old (Some place) more.now) }
        ensures kept { OnOk result (IsSketch self.new) }
    {
        let Ok(()) = self.nodes[place].routes.extend(more) else {
            return Err(LineError::Kind(SceneKind::Full));
        };
        Ok(())
    }

    /// A `route` line, by its text and the place of its node.
    fn state_route_at(&mut self, text: &[u8], place: Option<usize>) -> Result<(), LineError>
        requires kept { IsSketch self.old }
        requires node { IfSome place (λ place. place < length self.old.nodes) }
        requires router { IfSome place (λ place. (node_at self.old.nodes place).addr ≢ None) }
        ensures answer { Judged result self.new (state_route_at self.old text.now place) }
        ensures kept { OnOk result (IsSketch self.new) }
    {
        let ifaces = self.known_ifaces(place);
        match Table::parse_bytes(text, &ifaces) {
            Ok(more) => match place {
                Some(place) => self.add_routes(place, &more),
                None => Err(LineError::Kind(SceneKind::Unknown)),
            },
            Err(error) => Err(LineError::Kind(kind_of(error.kind))),
        }
    }

    /// A `route` line.
    pub(crate) fn state_route(&mut self, alloc: Global, args: &[&[u8]]) -> Result<(), LineError>
        requires kept { IsSketch self.old }
        requires fits { Fits Form.Route (map (λ word. word.now) args.now) }
        ensures answer { Judged result self.new (state_route self.old (map (λ word. word.now) args.now)) }
        ensures kept { OnOk result (IsSketch self.new) }
    {
        let Ok(text) = text_from(alloc, args, 1) else {
            return Err(LineError::NoMemory);
        };
        let place = router_named(&self.nodes, word_at(args, 0));
        self.state_route_at(&text, place)
    }
}
