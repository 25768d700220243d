// A sheet as lines of text: how much it holds, each record, and its scope tree; or the refusal.
use crate::show::faults::FaultText;
use crate::show::frames::FrameText;
use crate::show::indents::Indent;
use crate::show::nodes::NodeText;
use crate::show::scopes::ScopeText;
use crate::walk::Spot;
use format::ids::NodeId;
use scope::tables::ExprScopes;
use sheet::body::Body;
use std::io;

fn print_nodes(rt: &HostRuntime, body: &Body) -> io::Result<()> {
    // The ids are counted here and below, and by no function: it could not answer an `impl Iterator`.
    for id in (1..=body.root().number()).filter_map(NodeId::new) {
        let number = id.number();
        let text = NodeText { body, id };
        println!(rt; "  node {number}  {text}")?;
    }
    Ok(())
}

// Bindings are told from 1, as nodes name them.
fn print_bindings(rt: &HostRuntime, body: &Body) -> io::Result<()> {
    for (number, binding) in (1..=u32::MAX).zip(body.bindings()) {
        let name = binding.name.0;
        let hygiene = binding.hygiene.0;
        println!(rt; "  binding {number}  name {name}, hygiene {hygiene}")?;
    }
    Ok(())
}

// Frames are told from 1, as a refusal tells them, the outermost first.
fn print_frames(rt: &HostRuntime, body: &Body) -> io::Result<()> {
    for (number, frame) in (1..=u32::MAX).zip(body.frames()) {
        let text = FrameText(*frame);
        println!(rt; "  frame {number}  {text}")?;
    }
    Ok(())
}

// The scopes, each further to the right than the one that it lies in. No more are told than there are,
// which bounds the way; the closure of a `successors` would be `next` once more.
fn print_scopes(rt: &HostRuntime, tree: &ExprScopes) -> io::Result<()> {
    let mut spot = Spot::root();
    for _ in 0..tree.scope_count() {
        let indent = Indent(spot.depth);
        let text = ScopeText {
            tree,
            id: spot.scope,
        };
        println!(rt; "    {indent}{text}")?;
        let Some(next) = spot.next(tree) else {
            break;
        };
        spot = next;
    }
    Ok(())
}

// The scope that each expression is recorded in. Other nodes have none.
fn print_expressions(rt: &HostRuntime, body: &Body, tree: &ExprScopes) -> io::Result<()> {
    for id in (1..=body.root().number()).filter_map(NodeId::new) {
        if let Ok(scope) = tree.scope_for(id) {
            let number = id.number();
            let scope = scope.0;
            println!(rt; "    node {number} in scope {scope}")?;
        }
    }
    Ok(())
}

fn print_tree(rt: &HostRuntime, body: &Body) -> io::Result<()> {
    let tree = ExprScopes::new_body(body);
    println!(rt; "  scopes:")?;
    print_scopes(rt, &tree)?;
    println!(rt; "  expressions:")?;
    print_expressions(rt, body, &tree)
}

fn print_body(rt: &HostRuntime, name: &str, body: &Body) -> io::Result<()> {
    let nodes = body.node_count();
    let children = body.child_count();
    let bindings = body.binding_count();
    let frames = body.frame_count();
    println!(rt;
        "{name}: {nodes} nodes, {children} children, {bindings} bindings, {frames} frames"
    )?;
    print_nodes(rt, body)?;
    print_bindings(rt, body)?;
    print_frames(rt, body)?;
    print_tree(rt, body)
}

// A refusal is an answer, as a body is: only a line that cannot be written is an error.
pub(crate) fn print_sheet(rt: &HostRuntime, name: &str, bytes: &[u8]) -> io::Result<()> {
    match Body::read(bytes) {
        Ok(body) => print_body(rt, name, &body),
        Err(fault) => {
            let text = FaultText(fault);
            println!(rt; "{name}: {text}")
        }
    }
}
