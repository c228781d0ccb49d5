// The telephone's program: reads zone.trk and release.trk of the working folder, and prints why each release has its place.
#![tactic(auto)]

fn main(rt: HostRuntime) {
    serve::why(&rt);
}
