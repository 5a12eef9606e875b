// Laws on lists, sections and counting, which know nothing of graphs. No code: the definitions stand in specs/.
#![tactic(auto)]
