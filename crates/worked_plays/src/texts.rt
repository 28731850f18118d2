//! Texts of games and of their certificates.

/// One state and one action of each player, with the reward 3 at each stage; the discount is a half.
pub const THREE_HALVED: &[u8] =
    b"osposg 1\nsize 1 1 1 1\ntotal 1\ndiscount 1 2\nfirst 1\nstep 0 0 0 3\nout 0 0 1\nend\n";

/// A certificate of six.
pub const THREE_HALVED_CERTIFICATE: &[u8] =
    b"certificate 1\noutcome closed\ngap 0/1\nlower 393216/65536\nupper 393216/65536\n\
    tail 393216/65536\nsizes 1 1\nstart 0 0\nnode 0\nvector 393216\nmix 65536\n\
    next 0 0 0 65536\npoint 0\nbelief 1\nvalue 393216\nmix 0 65536\nsplit 0 0 0 65536\nend\n";

/// Both players show a side of a coin, once.
pub const MATCHING_PENNIES: &[u8] =
    b"osposg 1\nsize 1 2 2 1\ntotal 1\ndiscount 0 1\nfirst 1\nstep 0 0 0 1\nout 0 0 1\n\
    step 0 0 1 -1\nout 0 0 1\nstep 0 1 0 -1\nout 0 0 1\nstep 0 1 1 1\nout 0 0 1\nend\n";

/// A certificate by which both show either side with equal weights, and go on with one side alone.
pub const MATCHING_PENNIES_CERTIFICATE: &[u8] =
    b"certificate 1\noutcome closed\ngap 1/100\nlower 0/65536\nupper 0/65536\n\
    tail 65536/65536\nsizes 2 2\nstart 1 1\nnode 0\nvector -65536\nmix 65536 0\n\
    next 0 0 0 65536\nnode 1\nvector 0\nmix 32768 32768\nnext 0 0 0 32768\n\
    next 1 0 0 32768\npoint 0\nbelief 1\nvalue 65536\nmix 0 65536 0\nsplit 0 0 0 65536\n\
    split 1 0 0 65536\npoint 1\nbelief 1\nvalue 0\nmix 0 32768 32768\nsplit 0 0 0 65536\n\
    split 1 0 0 65536\nend\n";

/// Two states, one of which player one guesses each time.
pub const GUESS_THE_STATE: &[u8] =
    b"osposg 1\nsize 2 2 1 1\ntotal 1\ndiscount 0 1\nfirst 1 1\nstep 0 0 0 1\nout 0 0 1\n\
    step 0 1 0 0\nout 0 0 1\nstep 1 0 0 0\nout 0 1 1\nstep 1 1 0 1\nout 0 1 1\nend\n";

/// A certificate that starts from two nodes and two points.
pub const TWO_STARTS: &[u8] =
    b"certificate 2\noutcome trials\ngap 1/100\nlower 131072/262144\nupper 131072/131072\n\
    tail 65536/65536\nsizes 2 2\nmultiple 1\nfrom 0 1\nfrom 1 1\nover 0 1\nover 1 1\n\
    node 0\nvector 65536 0\nmix 65536 0\nnext 0 0 0 65536\nnode 1\nvector 0 65536\n\
    mix 0 65536\nnext 1 0 1 65536\npoint 0\nbelief 1 0\nvalue 65536\nmix 0 65536\n\
    mix 1 65536\nsplit 0 0 0 65536\nsplit 1 0 0 65536\npoint 1\nbelief 0 1\nvalue 65536\n\
    mix 0 65536\nmix 1 65536\nsplit 0 0 1 65536\nsplit 1 0 1 65536\nend\n";
