// The desk program: reads zone.trk and release.trk of the working folder, and prints the place of each release.
#![tactic(auto)]

fn main(rt: HostRuntime) {
    serve::desk(&rt);
}
